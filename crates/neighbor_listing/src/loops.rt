// The candidate pairs: an atom with the atoms of a bin, which lie side by side where they are at most 64; else, and where a difference goes the long way,
// with a part of a bin, at most 32 at a time. The near ones are gathered without a branch; of these, what is not excluded is stored where there is room.
ghost use Rattle.std.specs.Prelude.{◌≡◌, ◌+◌, ◌/◌, ◌≤◌, ◌<◌, min, max, length, drop, cond, true};
ghost use Rattle.cell.specs.Vec.{position_at};
ghost use Rattle.lists.specs.Lists.{ordered, with_each, inside, across};
ghost use Rattle.bins.specs.Listing.{consider_of, list_of, Ready, Below};
ghost use Rattle.neighbor_listing.specs.Sides.{LaidOut, Bounded, Framed, SharedAt, Shares};
ghost use Rattle.neighbor_listing.specs.Steps.{chosen_by, near_to, Gathered, Lists, TriedSays};

use crate::side;
use crate::side::{Bounds, Reach};
use crate::sight::{Sight, sees, spot_at};
use crate::tops::is_excluded;
use bins::Tally;
use cell::Vec3;

fn lower(i: u32, j: u32) -> u32
    ensures { result ≡ min i j }
{
    if i < j { i } else { j }
}

pub(crate) fn higher(i: u32, j: u32) -> u32
    ensures { result ≡ max i j }
{
    if i < j { j } else { i }
}

fn one(test: bool) -> usize
    ensures value { result ≡ cond test 1 0 }
    ensures upper_bound { result ≤ 1 }
{
    if test { 1 } else { 0 }
}

// A near pair: listed where it is not excluded.
fn settle(table: &[u32], tops: &[u32], pairs: &mut [u32], t: Tally, i: u32, j: u32) -> Tally
    requires { Ready t 1 }
    ensures { record { tally = result; mem = pairs.new } ≡ consider_of (chosen_by tops.now table.now) (record { tally = t; mem = pairs.old }) (ordered i j) }
{
    let low = lower(i, j);
    let high = higher(i, j);
    if is_excluded(table, tops, low, high) {
        return t;
    }
    let count = t.count;
    bins::kernel::push(pairs, count, low, high);
    Tally {
        count: bins_rules::one_more(count),
        checks: t.checks + 1,
    }
}

// An atom with each that is near.
fn settle_all(
    table: &[u32],
    tops: &[u32],
    pairs: &mut [u32],
    t: Tally,
    i: u32,
    near: &[u32],
) -> Tally
    requires { Ready t (length (with_each i near.now)) }
    ensures { record { tally = result; mem = pairs.new } ≡ list_of (chosen_by tops.now table.now) (record { tally = t; mem = pairs.old }) (with_each i near.now) }
{
    let mut now = t;
    for j in near {
        now = settle(table, tops, pairs, now, i, *j);
    }
    now
}

// Those of a part that are near atom i, which is at a, to the room's front; how many they are. Each is written, and stays where it is near.
fn sift(s: Sight, xs: &[f64], i: u32, a: Vec3, part: &[u32], room: &mut [u32]) -> usize
    requires { Below (length xs.now / 3) part.now × (length part.now ≤ length room.old) × (a ≡ position_at xs.now i) }
    ensures { Gathered (near_to s xs.now i) part.now result room.new }
{
    let mut count = 0;
    for &j in part {
        room[count] = j;
        count += one(sees(s, i < j, a, spot_at(xs, j as usize)));
    }
    count
}

// Room for the near ones of a part; in a function of its own, so that no proof writes out its numbers.
fn blank() -> [u32; 32]
    ensures { length result ≡ 32 }
{
    [0u32; 32]
}

// An atom, which is at a, with each of a part that is no longer than the room.
fn consider_few(
    s: Sight,
    xs: &[f64],
    table: &[u32],
    tops: &[u32],
    pairs: &mut [u32],
    t: Tally,
    i: u32,
    a: Vec3,
    part: &[u32],
) -> Tally
    requires { (length part.now ≤ 32) × Below (length xs.now / 3) part.now × (a ≡ position_at xs.now i) × Ready t (length (with_each i part.now)) }
    ensures { Lists s xs.now tops.now table.now t pairs.old (with_each i part.now) result pairs.new }
{
    let n = part.len();
    let mut room = blank();
    let count = sift(s, xs, i, a, part, &mut room[..n]);
    let near = settle_all(table, tops, pairs, t, i, &room[..count]);
    Tally {
        count: near.count,
        checks: t.checks + n,
    }
}

// An atom with each of a part, in the part's order. Its coordinates are read once.
fn consider_part(
    s: Sight,
    xs: &[f64],
    table: &[u32],
    tops: &[u32],
    pairs: &mut [u32],
    t: Tally,
    i: u32,
    part: &[u32],
) -> Tally
    requires { (i < length xs.now / 3) × Below (length xs.now / 3) part.now × Ready t (length (with_each i part.now)) }
    ensures { Lists s xs.now tops.now table.now t pairs.old (with_each i part.now) result pairs.new }
{
    let a = spot_at(xs, i as usize);
    let mut now = t;
    for few in part.chunks(32) {
        now = consider_few(s, xs, table, tops, pairs, now, i, a, few);
    }
    now
}

// What was made of an atom with a part: its tally, or nothing, where a difference goes the long way.
#[derive(Drop)]
struct Tried {
    done: bool,
    tally: Tally,
}

// An atom with each of a part from `from` on, which lies side by side. Where the bounds are out of sight none is near.
fn try_side(
    s: Sight,
    xs: &[f64],
    table: &[u32],
    tops: &[u32],
    pairs: &mut [u32],
    t: Tally,
    i: u32,
    from: usize,
    part: &[u32],
    bx: &[f64],
    by: &[f64],
    bz: &[f64],
    flags: &mut [usize],
    room: &mut [u32],
    w: Bounds,
    p: Reach,
) -> Tried
    requires { (i < length xs.now / 3) × Below (length xs.now / 3) part.now × (from ≤ length part.now) × (length part.now ≤ 64) × LaidOut xs.now part.now bx.now by.now bz.now (length part.now) × (length flags.old ≡ 64) × (length room.old ≡ 64) × Ready t (length (with_each i (drop from part.now))) × Bounded bx.now by.now bz.now (length part.now) w × SharedAt s (position_at xs.now i) w p }
    ensures { TriedSays s xs.now tops.now table.now t pairs.old (with_each i (drop from part.now)) result pairs.new }
{
    let a = spot_at(xs, i as usize);
    let r = side::reach_by(s, a, w, p);
    if r.beyond {
        return Tried {
            done: true,
            tally: Tally {
                count: t.count,
                checks: t.checks + (part.len() - from),
            },
        };
    }
    if !side::flag(s, i, a, from, part, bx, by, bz, flags, r) {
        return Tried {
            done: false,
            tally: t,
        };
    }
    let count = side::gather(from, part, flags, room);
    let near = settle_all(table, tops, pairs, t, i, &room[..count]);
    Tried {
        done: true,
        tally: Tally {
            count: near.count,
            checks: t.checks + (part.len() - from),
        },
    }
}

// .. in a tilted cell: apart, so that neither has the other's numbers to keep.
fn try_skewed(
    s: Sight,
    xs: &[f64],
    table: &[u32],
    tops: &[u32],
    pairs: &mut [u32],
    t: Tally,
    i: u32,
    from: usize,
    part: &[u32],
    bx: &[f64],
    by: &[f64],
    bz: &[f64],
    flags: &mut [usize],
    room: &mut [u32],
    w: Bounds,
) -> Tried
    requires { (i < length xs.now / 3) × Below (length xs.now / 3) part.now × (from ≤ length part.now) × (length part.now ≤ 64) × LaidOut xs.now part.now bx.now by.now bz.now (length part.now) × (length flags.old ≡ 64) × (length room.old ≡ 64) × Ready t (length (with_each i (drop from part.now))) × Bounded bx.now by.now bz.now (length part.now) w }
    ensures { TriedSays s xs.now tops.now table.now t pairs.old (with_each i (drop from part.now)) result pairs.new }
{
    let a = spot_at(xs, i as usize);
    let r = side::tilted_reach(s, a, w);
    if r.beyond {
        return Tried {
            done: true,
            tally: Tally {
                count: t.count,
                checks: t.checks + (part.len() - from),
            },
        };
    }
    if !side::flag_skewed(s, i, a, from, part, bx, by, bz, flags, r) {
        return Tried {
            done: false,
            tally: t,
        };
    }
    let count = side::gather(from, part, flags, room);
    let near = settle_all(table, tops, pairs, t, i, &room[..count]);
    Tried {
        done: true,
        tally: Tally {
            count: near.count,
            checks: t.checks + (part.len() - from),
        },
    }
}

// .. or by the long way. Apart from `try_side` and `try_skewed`, which hand the cell's facts to no call: so they copy none of them. Each has two callers, and
// so stays a function of its own.
fn consider_side(
    s: Sight,
    xs: &[f64],
    table: &[u32],
    tops: &[u32],
    pairs: &mut [u32],
    t: Tally,
    i: u32,
    from: usize,
    part: &[u32],
    bx: &[f64],
    by: &[f64],
    bz: &[f64],
    flags: &mut [usize],
    room: &mut [u32],
    w: Bounds,
    p: Reach,
) -> Tally
    requires { (i < length xs.now / 3) × Below (length xs.now / 3) part.now × (from ≤ length part.now) × (length part.now ≤ 64) × LaidOut xs.now part.now bx.now by.now bz.now (length part.now) × (length flags.old ≡ 64) × (length room.old ≡ 64) × Ready t (length (with_each i (drop from part.now))) × Bounded bx.now by.now bz.now (length part.now) w × SharedAt s (position_at xs.now i) w p }
    ensures { Lists s xs.now tops.now table.now t pairs.old (with_each i (drop from part.now)) result pairs.new }
{
    if s.prepared.general.skewed {
        let o = try_skewed(
            s, xs, table, tops, pairs, t, i, from, part, bx, by, bz, flags, room, w,
        );
        if o.done {
            return o.tally;
        }
        return consider_part(s, xs, table, tops, pairs, t, i, &part[from..]);
    }
    let o = try_side(
        s, xs, table, tops, pairs, t, i, from, part, bx, by, bz, flags, room, w, p,
    );
    if o.done {
        return o.tally;
    }
    consider_part(s, xs, table, tops, pairs, t, i, &part[from..])
}

// .. with each of a whole part.
fn consider_whole(
    s: Sight,
    xs: &[f64],
    table: &[u32],
    tops: &[u32],
    pairs: &mut [u32],
    t: Tally,
    i: u32,
    part: &[u32],
    bx: &[f64],
    by: &[f64],
    bz: &[f64],
    flags: &mut [usize],
    room: &mut [u32],
    w: Bounds,
    p: Reach,
) -> Tally
    requires { (i < length xs.now / 3) × Below (length xs.now / 3) part.now × (length part.now ≤ 64) × LaidOut xs.now part.now bx.now by.now bz.now (length part.now) × (length flags.old ≡ 64) × (length room.old ≡ 64) × Ready t (length (with_each i part.now)) × Bounded bx.now by.now bz.now (length part.now) w × SharedAt s (position_at xs.now i) w p }
    ensures { Lists s xs.now tops.now table.now t pairs.old (with_each i part.now) result pairs.new }
{
    if s.prepared.general.skewed {
        let o = try_skewed(
            s, xs, table, tops, pairs, t, i, 0, part, bx, by, bz, flags, room, w,
        );
        if o.done {
            return o.tally;
        }
        return consider_part(s, xs, table, tops, pairs, t, i, part);
    }
    let o = try_side(
        s, xs, table, tops, pairs, t, i, 0, part, bx, by, bz, flags, room, w, p,
    );
    if o.done {
        return o.tally;
    }
    consider_part(s, xs, table, tops, pairs, t, i, part)
}

// An atom with each of a part by the step that two bins share. It has one caller, and so goes into that loop, with no call for an atom and a bin.
fn see_shared(
    s: Sight,
    xs: &[f64],
    table: &[u32],
    tops: &[u32],
    pairs: &mut [u32],
    t: Tally,
    i: u32,
    part: &[u32],
    bx: &[f64],
    by: &[f64],
    bz: &[f64],
    flags: &mut [usize],
    room: &mut [u32],
    w: Bounds,
    p: Reach,
) -> Tally
    requires { (i < length xs.now / 3) × (length part.now ≤ 64) × LaidOut xs.now part.now bx.now by.now bz.now (length part.now) × (length flags.old ≡ 64) × (length room.old ≡ 64) × Ready t (length (with_each i part.now)) × Bounded bx.now by.now bz.now (length part.now) w × SharedAt s (position_at xs.now i) w p × (p.single ≡ true) }
    ensures { Lists s xs.now tops.now table.now t pairs.old (with_each i part.now) result pairs.new }
{
    let a = spot_at(xs, i as usize);
    let r = side::reach_shared(s, a, w, p);
    if r.beyond {
        return Tally {
            count: t.count,
            checks: t.checks + part.len(),
        };
    }
    side::flag_single(s, i, a, 0, part, bx, by, bz, flags, r);
    let count = side::gather(0, part, flags, room);
    let near = settle_all(table, tops, pairs, t, i, &room[..count]);
    Tally {
        count: near.count,
        checks: t.checks + part.len(),
    }
}

// Each atom of a bin with each of another, which lies side by side, by the step that they share.
fn cross_shared(
    s: Sight,
    xs: &[f64],
    table: &[u32],
    tops: &[u32],
    pairs: &mut [u32],
    t: Tally,
    home: &[u32],
    other: &[u32],
    bx: &[f64],
    by: &[f64],
    bz: &[f64],
    flags: &mut [usize],
    room: &mut [u32],
    w: Bounds,
    p: Reach,
) -> Tally
    requires { Below (length xs.now / 3) home.now × (length other.now ≤ 64) × LaidOut xs.now other.now bx.now by.now bz.now (length other.now) × (length flags.old ≡ 64) × (length room.old ≡ 64) × Ready t (length (across home.now other.now)) × Bounded bx.now by.now bz.now (length other.now) w × Shares s xs.now home.now w p × (p.single ≡ true) }
    ensures { Lists s xs.now tops.now table.now t pairs.old (across home.now other.now) result pairs.new }
{
    let mut now = t;
    for &i in home {
        now = see_shared(
            s, xs, table, tops, pairs, now, i, other, bx, by, bz, flags, room, w, p,
        );
    }
    now
}

// Each atom of a bin with each of another, which lies side by side.
fn cross_side(
    s: Sight,
    xs: &[f64],
    table: &[u32],
    tops: &[u32],
    pairs: &mut [u32],
    t: Tally,
    home: &[u32],
    other: &[u32],
    bx: &[f64],
    by: &[f64],
    bz: &[f64],
    flags: &mut [usize],
    room: &mut [u32],
    w: Bounds,
    p: Reach,
) -> Tally
    requires { Below (length xs.now / 3) home.now × Below (length xs.now / 3) other.now × (length other.now ≤ 64) × LaidOut xs.now other.now bx.now by.now bz.now (length other.now) × (length flags.old ≡ 64) × (length room.old ≡ 64) × Ready t (length (across home.now other.now)) × Bounded bx.now by.now bz.now (length other.now) w × Shares s xs.now home.now w p }
    ensures { Lists s xs.now tops.now table.now t pairs.old (across home.now other.now) result pairs.new }
{
    let mut now = t;
    for &i in home {
        now = consider_whole(
            s, xs, table, tops, pairs, now, i, other, bx, by, bz, flags, room, w, p,
        );
    }
    now
}

// Each pair of a bin, which lies side by side, the earlier atom first.
fn home_side(
    s: Sight,
    xs: &[f64],
    table: &[u32],
    tops: &[u32],
    pairs: &mut [u32],
    t: Tally,
    home: &[u32],
    bx: &[f64],
    by: &[f64],
    bz: &[f64],
    flags: &mut [usize],
    room: &mut [u32],
    w: Bounds,
    p: Reach,
) -> Tally
    requires { Below (length xs.now / 3) home.now × (length home.now ≤ 64) × LaidOut xs.now home.now bx.now by.now bz.now (length home.now) × (length flags.old ≡ 64) × (length room.old ≡ 64) × Ready t (length (inside home.now)) × Bounded bx.now by.now bz.now (length home.now) w × Shares s xs.now home.now w p }
    ensures { Lists s xs.now tops.now table.now t pairs.old (inside home.now) result pairs.new }
{
    let mut now = t;
    for k in 0..home.len() {
        let i = home[k];
        now = consider_side(
            s,
            xs,
            table,
            tops,
            pairs,
            now,
            i,
            k + 1,
            home,
            bx,
            by,
            bz,
            flags,
            room,
            w,
            p,
        );
    }
    now
}

// .. in rooms of their own.
fn cross_few(
    s: Sight,
    xs: &[f64],
    table: &[u32],
    tops: &[u32],
    pairs: &mut [u32],
    t: Tally,
    home: &[u32],
    other: &[u32],
    v: Bounds,
) -> Tally
    requires { Below (length xs.now / 3) home.now × Below (length xs.now / 3) other.now × (length other.now ≤ 64) × Ready t (length (across home.now other.now)) × Framed xs.now home.now v }
    ensures { Lists s xs.now tops.now table.now t pairs.old (across home.now other.now) result pairs.new }
{
    let mut bx = side::blank_places();
    let mut by = side::blank_places();
    let mut bz = side::blank_places();
    let mut flags = side::blank_flags();
    let mut room = side::blank_room();
    side::lay_out(xs, other, &mut bx, &mut by, &mut bz);
    let w = side::bounds_of(other.len(), &bx, &by, &bz);
    let p = side::shared_of(s, v, w);
    if p.single {
        return cross_shared(
            s, xs, table, tops, pairs, t, home, other, &bx, &by, &bz, &mut flags, &mut room, w, p,
        );
    }
    cross_side(
        s, xs, table, tops, pairs, t, home, other, &bx, &by, &bz, &mut flags, &mut room, w, p,
    )
}

fn home_few(
    s: Sight,
    xs: &[f64],
    table: &[u32],
    tops: &[u32],
    pairs: &mut [u32],
    t: Tally,
    home: &[u32],
) -> Tally
    requires { Below (length xs.now / 3) home.now × (length home.now ≤ 64) × Ready t (length (inside home.now)) }
    ensures { Lists s xs.now tops.now table.now t pairs.old (inside home.now) result pairs.new }
{
    let mut bx = side::blank_places();
    let mut by = side::blank_places();
    let mut bz = side::blank_places();
    let mut flags = side::blank_flags();
    let mut room = side::blank_room();
    side::lay_out(xs, home, &mut bx, &mut by, &mut bz);
    let w = side::bounds_of(home.len(), &bx, &by, &bz);
    let p = side::shared_of(s, w, w);
    home_side(
        s, xs, table, tops, pairs, t, home, &bx, &by, &bz, &mut flags, &mut room, w, p,
    )
}

// Each atom of a bin with each of another, however many they are.
fn cross_many(
    s: Sight,
    xs: &[f64],
    table: &[u32],
    tops: &[u32],
    pairs: &mut [u32],
    t: Tally,
    home: &[u32],
    other: &[u32],
) -> Tally
    requires { Below (length xs.now / 3) home.now × Below (length xs.now / 3) other.now × Ready t (length (across home.now other.now)) }
    ensures { Lists s xs.now tops.now table.now t pairs.old (across home.now other.now) result pairs.new }
{
    let mut now = t;
    for &i in home {
        now = consider_part(s, xs, table, tops, pairs, now, i, other);
    }
    now
}

// Each pair of a bin, the earlier atom first, however many they are.
fn home_many(
    s: Sight,
    xs: &[f64],
    table: &[u32],
    tops: &[u32],
    pairs: &mut [u32],
    t: Tally,
    home: &[u32],
) -> Tally
    requires { Below (length xs.now / 3) home.now × Ready t (length (inside home.now)) }
    ensures { Lists s xs.now tops.now table.now t pairs.old (inside home.now) result pairs.new }
{
    let mut now = t;
    for k in 0..home.len() {
        let i = home[k];
        now = consider_part(s, xs, table, tops, pairs, now, i, &home[k + 1..]);
    }
    now
}

// Each atom of a bin, whose bounds are v, with each of another.
pub(crate) fn consider_cross(
    s: Sight,
    xs: &[f64],
    table: &[u32],
    tops: &[u32],
    pairs: &mut [u32],
    t: Tally,
    home: &[u32],
    other: &[u32],
    v: Bounds,
) -> Tally
    requires { Below (length xs.now / 3) home.now × Below (length xs.now / 3) other.now × Ready t (length (across home.now other.now)) × Framed xs.now home.now v }
    ensures { Lists s xs.now tops.now table.now t pairs.old (across home.now other.now) result pairs.new }
{
    if other.len() <= 64 {
        return cross_few(s, xs, table, tops, pairs, t, home, other, v);
    }
    cross_many(s, xs, table, tops, pairs, t, home, other)
}

// Each pair of a bin, the earlier atom first.
pub(crate) fn consider_home(
    s: Sight,
    xs: &[f64],
    table: &[u32],
    tops: &[u32],
    pairs: &mut [u32],
    t: Tally,
    home: &[u32],
) -> Tally
    requires { Below (length xs.now / 3) home.now × Ready t (length (inside home.now)) }
    ensures { Lists s xs.now tops.now table.now t pairs.old (inside home.now) result pairs.new }
{
    if home.len() <= 64 {
        return home_few(s, xs, table, tops, pairs, t, home);
    }
    home_many(s, xs, table, tops, pairs, t, home)
}
