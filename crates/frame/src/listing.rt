// The pairs of candidates, listed: each is counted, and what is near and not excluded is stored where there is room. Only a near pair is looked up in
// the exclusion table: the checks are the candidates less the rows among them, which are counted apart (crate checks).
ghost use Rattle.std.specs.Prelude.{◌≡◌, ◌+◌, ◌-◌, ◌/◌, ◌≤◌, ◌<◌, length};
ghost use Rattle.lists.specs.Lists.{numbers, ordered, with_each, inside, across, all_pairs};
ghost use Rattle.bins.specs.Listing.{consider_of, Ready, Below};
ghost use Rattle.candidates.specs.Steps.{judged};
ghost use Rattle.frame.specs.Distance.{spot_of};
ghost use Rattle.frame.specs.Steps.{Framed, scene_by, Lists};

use crate::distance::is_near;
use crate::laying::spot_at;
use crate::{Frame, Spot};
use bins::Tally;

// A candidate pair, low atom first, of which it is known whether it is near.
fn settle(table: &[u32], pairs: &mut [u32], t: Tally, low: u32, high: u32, near: bool) -> Tally
    requires { Ready t 1 }
    ensures { record { tally = result; mem = pairs.new } ≡ consider_of (judged table.now near) (record { tally = t; mem = pairs.old }) (low, high) }
{
    let checks = t.checks + 1;
    let count = t.count;
    if !near {
        return Tally {
            count: count,
            checks: checks,
        };
    }
    if exclusions::kernel::excluded(table, low, high) {
        return Tally {
            count: count,
            checks: checks,
        };
    }
    bins::kernel::push(pairs, count, low, high);
    Tally {
        count: bins_rules::one_more(count),
        checks: checks,
    }
}

// A candidate pair: atom i, which is at a, and atom j.
fn consider(
    f: Frame,
    xs: &[u32],
    table: &[u32],
    pairs: &mut [u32],
    t: Tally,
    i: u32,
    a: Spot,
    j: u32,
) -> Tally
    requires ready { Ready t 1 × Framed f xs.now }
    requires i_in_bounds { (i < length xs.now / 3) × (j < length xs.now / 3) × (a ≡ spot_of xs.now i) }
    ensures { record { tally = result; mem = pairs.new } ≡ consider_of (scene_by f xs.now table.now) (record { tally = t; mem = pairs.old }) (ordered i j) }
{
    let b = spot_at(xs, j as usize);
    let near = is_near(f, a, b);
    if i < j {
        return settle(table, pairs, t, i, j, near);
    }
    settle(table, pairs, t, j, i, near)
}

// An atom with each of a part, in the part's order. Its coordinates are read once.
fn consider_part(
    f: Frame,
    xs: &[u32],
    table: &[u32],
    pairs: &mut [u32],
    t: Tally,
    i: u32,
    part: &[u32],
) -> Tally
    requires framed { Framed f xs.now }
    requires i_in_bounds { (i < length xs.now / 3) × Below (length xs.now / 3) part.now × Ready t (length (with_each i part.now)) }
    ensures { Lists f xs.now table.now t pairs.old (with_each i part.now) result pairs.new }
{
    let a = spot_at(xs, i as usize);
    let mut now = t;
    for &j in part {
        now = consider(f, xs, table, pairs, now, i, a, j);
    }
    now
}

// Each atom of a bin with each of another.
pub(crate) fn consider_cross(
    f: Frame,
    xs: &[u32],
    table: &[u32],
    pairs: &mut [u32],
    t: Tally,
    home: &[u32],
    other: &[u32],
) -> Tally
    requires framed { Framed f xs.now }
    requires below { Below (length xs.now / 3) home.now × Below (length xs.now / 3) other.now × Ready t (length (across home.now other.now)) }
    ensures { Lists f xs.now table.now t pairs.old (across home.now other.now) result pairs.new }
{
    let mut now = t;
    for &i in home {
        now = consider_part(f, xs, table, pairs, now, i, other);
    }
    now
}

// Each pair of a bin, the earlier atom first.
pub(crate) fn consider_home(
    f: Frame,
    xs: &[u32],
    table: &[u32],
    pairs: &mut [u32],
    t: Tally,
    home: &[u32],
) -> Tally
    requires framed { Framed f xs.now }
    requires below { Below (length xs.now / 3) home.now × Ready t (length (inside home.now)) }
    ensures { Lists f xs.now table.now t pairs.old (inside home.now) result pairs.new }
{
    let mut now = t;
    for (k, &i) in home.iter().enumerate() {
        now = consider_part(f, xs, table, pairs, now, i, &home[k + 1..]);
    }
    now
}

// An atom with each later one.
fn consider_above(
    f: Frame,
    xs: &[u32],
    table: &[u32],
    pairs: &mut [u32],
    t: Tally,
    i: u32,
    n: u32,
) -> Tally
    requires framed { Framed f xs.now }
    requires i_lt_n { (i < n) × (n ≤ length xs.now / 3) × Ready t (length (with_each i (numbers (i + 1) (n - (i + 1))))) }
    ensures { Lists f xs.now table.now t pairs.old (with_each i (numbers (i + 1) (n - (i + 1)))) result pairs.new }
{
    let a = spot_at(xs, i as usize);
    let mut now = t;
    for j in i + 1..n {
        now = consider(f, xs, table, pairs, now, i, a, j);
    }
    now
}

// Every pair of atoms: the fallback.
pub(crate) fn consider_all(
    f: Frame,
    xs: &[u32],
    table: &[u32],
    pairs: &mut [u32],
    t: Tally,
    n: u32,
) -> Tally
    requires framed { Framed f xs.now }
    requires n_in_bounds { (n ≤ length xs.now / 3) × Ready t (length (all_pairs n)) }
    ensures { Lists f xs.now table.now t pairs.old (all_pairs n) result pairs.new }
{
    let mut now = t;
    for i in 0..n {
        now = consider_above(f, xs, table, pairs, now, i, n);
    }
    now
}
