// The atoms of a bin side by side, at most 64. An atom is held against them in a loop that has no call and no branch, so that two go in an instruction;
// it is right where every difference goes a short way, and says whether that is so. The bounds of their places say it once for all of them, and the way,
// and whether any can be in sight: rounding keeps the order. In a box by the differences' own bounds, and most often once for all atoms of a second bin; in
// a tilted cell by the bounds of their fractions.
ghost use Rattle.std.specs.Prelude.{◌≡◌, cond, true, false, ◌/◌, ◌≤◌, length};
ghost use Rattle.bins.specs.Listing.{Below};
ghost use Rattle.neighbor_listing.specs.Sides.{SideRooms, LaidOut, BoxSays, box_holds, TiltedSays, fractions_of, in_unit, is_tilted, tilted_holds, is_enclosed, AllEnclosed, Bounded, Framed, step_in, gap_in, is_beyond, SingleSays, StillSays, SharedAt, SharedSays, stepped_sees, still_sees, least_rows, greatest_rows, is_level, FitEnds, SlantSays, is_outside, slanted_sees, is_upper, upper_sees, slope_sees, ReachSays, Reaches, Flagged, Flags, Bits, FlagsTaken};

use crate::sight::{Sight, spot_at};
use cell::{Vec3, matrices, vectors};
use neighbor_asked::strays::is_bounded;

// The least and the greatest coordinates of a part's places, and whether each lies between them: not where one is not a number.
#[derive(Clone, Copy)]
pub struct Bounds {
    pub lo: Vec3,
    pub hi: Vec3,
    pub sound: bool,
}

// What the bounds say of all their places: whether one step on each axis takes the differences with an atom to their images, in a box whether it is known
// to be nothing, that step (of a tilted cell: of the fractions), and whether all of them are out of sight then.
#[derive(Clone, Copy)]
pub struct Reach {
    pub single: bool,
    pub still: bool,
    pub step: Vec3,
    pub beyond: bool,
}

// SideRooms of 64; in functions of their own, so that no proof writes out their numbers.
pub(crate) fn blank_places() -> [f64; 64]
    ensures { length result ≡ 64 }
{
    [0.0; 64]
}

pub(crate) fn blank_flags() -> [usize; 64]
    ensures { length result ≡ 64 }
{
    [0usize; 64]
}

pub(crate) fn blank_room() -> [u32; 64]
    ensures { length result ≡ 64 }
{
    [0u32; 64]
}

// The places of a part's atoms.
pub(crate) fn lay_out(xs: &[f64], part: &[u32], bx: &mut [f64], by: &mut [f64], bz: &mut [f64])
    requires { Below (length xs.now / 3) part.now × (length part.now ≤ 64) × SideRooms bx.old by.old bz.old }
    ensures { LaidOut xs.now part.now bx.new by.new bz.new (length part.now) }
{
    for k in 0..part.len() {
        let b = spot_at(xs, part[k] as usize);
        bx[k] = b.x;
        by[k] = b.y;
        bz[k] = b.z;
    }
}

fn pick(test: bool, a: f64, b: f64) -> f64
    ensures { result ≡ cond test a b }
{
    if test { a } else { b }
}

fn least(a: Vec3, b: Vec3) -> Vec3 {
    Vec3 {
        x: pick(b.x < a.x, b.x, a.x),
        y: pick(b.y < a.y, b.y, a.y),
        z: pick(b.z < a.z, b.z, a.z),
    }
}

fn greatest(a: Vec3, b: Vec3) -> Vec3 {
    Vec3 {
        x: pick(a.x < b.x, b.x, a.x),
        y: pick(a.y < b.y, b.y, a.y),
        z: pick(a.z < b.z, b.z, a.z),
    }
}

// The bounds of n places. Nothing is said of them here: `all_enclosed` asks.
fn ends_of(n: usize, bx: &[f64], by: &[f64], bz: &[f64]) -> Bounds
    requires { (n ≤ 64) × SideRooms bx.now by.now bz.now }
{
    let far = 1.0 / 0.0;
    let mut lo = Vec3 {
        x: far,
        y: far,
        z: far,
    };
    let mut hi = Vec3 {
        x: -far,
        y: -far,
        z: -far,
    };
    for k in 0..n {
        let b = Vec3 {
            x: bx[k],
            y: by[k],
            z: bz[k],
        };
        lo = least(lo, b);
        hi = greatest(hi, b);
    }
    Bounds {
        lo: lo,
        hi: hi,
        sound: true,
    }
}

fn is_enclosed(w: Bounds, b: Vec3) -> bool
    ensures { result ≡ is_enclosed w b }
{
    (w.lo.x <= b.x)
        & (b.x <= w.hi.x)
        & (w.lo.y <= b.y)
        & (b.y <= w.hi.y)
        & (w.lo.z <= b.z)
        & (b.z <= w.hi.z)
}

fn all_enclosed(w: Bounds, n: usize, bx: &[f64], by: &[f64], bz: &[f64]) -> bool
    requires { (n ≤ 64) × SideRooms bx.now by.now bz.now }
    ensures { AllEnclosed bx.now by.now bz.now n w result }
{
    let mut ok = true;
    for k in 0..n {
        let b = Vec3 {
            x: bx[k],
            y: by[k],
            z: bz[k],
        };
        ok = ok & is_enclosed(w, b);
    }
    ok
}

pub(crate) fn bounds_of(n: usize, bx: &[f64], by: &[f64], bz: &[f64]) -> Bounds
    requires { (n ≤ 64) × SideRooms bx.now by.now bz.now }
    ensures { Bounded bx.now by.now bz.now n result }
{
    let w = ends_of(n, bx, by, bz);
    let sound = all_enclosed(w, n, bx, by, bz);
    let lo = w.lo;
    let hi = w.hi;
    Bounds {
        lo: lo,
        hi: hi,
        sound: sound,
    }
}

// The bounds of a part's atoms; of more than 64 nothing is said.
pub(crate) fn bounds_at(xs: &[f64], part: &[u32]) -> Bounds
    requires { Below (length xs.now / 3) part.now }
    ensures { Framed xs.now part.now result }
{
    if 64 < part.len() {
        return Bounds {
            lo: vectors::zero(),
            hi: vectors::zero(),
            sound: false,
        };
    }
    let mut bx = blank_places();
    let mut by = blank_places();
    let mut bz = blank_places();
    lay_out(xs, part, &mut bx, &mut by, &mut bz);
    bounds_of(part.len(), &bx, &by, &bz)
}

fn one(test: bool) -> usize
    ensures { result ≡ cond test 1 0 }
{
    if test { 1 } else { 0 }
}

// In a box: where two atoms are less than a length apart on each axis, and no length is an infinity.
fn box_sees(s: Sight, a: Vec3, b: Vec3) -> bool
    ensures { BoxSays s a b result }
{
    let l = s.prepared.short;
    let d = Vec3 {
        x: cell_square::side(l.x, a.x, b.x),
        y: cell_square::side(l.y, a.y, b.y),
        z: cell_square::side(l.z, a.z, b.z),
    };
    vectors::norm2(d) <= s.limit
}

fn box_holds(s: Sight, a: Vec3, b: Vec3) -> bool
    ensures { result ≡ box_holds s a b }
{
    let l = s.prepared.short;
    is_bounded(l)
        & cell_square::in_length(l.x, a.x, b.x)
        & cell_square::in_length(l.y, a.y, b.y)
        & cell_square::in_length(l.z, a.z, b.z)
}

// In a box, for all places within the bounds at once: by the two ends of the differences on each axis.
fn is_single(s: Sight, a: Vec3, w: Bounds) -> bool
    ensures { SingleSays s a (step_in s a w) w result }
{
    let l = s.prepared.short;
    w.sound
        & is_bounded(l)
        & cell_square::steady(l.x, a.x, w.lo.x, w.hi.x)
        & cell_square::steady(l.y, a.y, w.lo.y, w.hi.y)
        & cell_square::steady(l.z, a.z, w.lo.z, w.hi.z)
}

// .. of which the step is nothing.
fn is_still(s: Sight, a: Vec3, w: Bounds) -> bool
    ensures { StillSays s a w result }
{
    let l = s.prepared.short;
    w.sound
        & is_bounded(l)
        & cell_square::calm(l.x, a.x, w.lo.x, w.hi.x)
        & cell_square::calm(l.y, a.y, w.lo.y, w.hi.y)
        & cell_square::calm(l.z, a.z, w.lo.z, w.hi.z)
}

fn step_of(s: Sight, a: Vec3, w: Bounds) -> Vec3
    ensures { result ≡ step_in s a w }
{
    let l = s.prepared.short;
    Vec3 {
        x: cell_square::step(l.x, a.x, w.lo.x, w.hi.x),
        y: cell_square::step(l.y, a.y, w.lo.y, w.hi.y),
        z: cell_square::step(l.z, a.z, w.lo.z, w.hi.z),
    }
}

fn gap_of(p: Vec3, a: Vec3, w: Bounds) -> Vec3
    ensures { result ≡ gap_in p a w }
{
    Vec3 {
        x: cell_square::gap(p.x, a.x, w.lo.x, w.hi.x),
        y: cell_square::gap(p.y, a.y, w.lo.y, w.hi.y),
        z: cell_square::gap(p.z, a.z, w.lo.z, w.hi.z),
    }
}

fn is_beyond(s: Sight, p: Vec3, a: Vec3, w: Bounds) -> bool
    ensures { result ≡ is_beyond s p a w }
{
    !(vectors::norm2(gap_of(p, a, w)) <= s.limit)
}

// In a tilted cell: where each fraction is below 1.
fn fractions(s: Sight, d: Vec3) -> Vec3
    ensures { result ≡ fractions_of s d }
{
    let g = s.prepared.general;
    Vec3 {
        x: vectors::dot(g.ix, d),
        y: vectors::dot(g.iy, d),
        z: vectors::dot(g.iz, d),
    }
}

fn is_tilted(s: Sight) -> bool
    ensures { result ≡ is_tilted s }
{
    let p = s.prepared;
    let l = p.lattice;
    let g = p.general;
    !(0.0 < p.short.x) & g.skewed & !g.singular & l.px & l.py & l.pz
}

fn in_unit(f: Vec3) -> bool
    ensures { result ≡ in_unit f }
{
    (float::abs(f.x) < 1.0) & (float::abs(f.y) < 1.0) & (float::abs(f.z) < 1.0)
}

fn tilted_holds(s: Sight, d: Vec3) -> bool
    ensures { result ≡ tilted_holds s d }
{
    is_tilted(s) & in_unit(fractions(s, d))
}

fn tilted_sees(s: Sight, d: Vec3) -> bool
    ensures { TiltedSays s d result }
{
    let f = fractions(s, d);
    let l = s.prepared.lattice;
    let near = Vec3 {
        x: cell_axis::near(1.0, f.x),
        y: cell_axis::near(1.0, f.y),
        z: cell_axis::near(1.0, f.z),
    };
    vectors::norm2(matrices::times(matrices::matrix(l), near)) <= s.limit
}

// For all that lies from low up to high at once: the least and the greatest that its products with three rows can be.
fn least_rows(x: Vec3, y: Vec3, z: Vec3, low: Vec3, high: Vec3) -> Vec3
    ensures { result ≡ least_rows x y z low high }
{
    Vec3 {
        x: cell_square::low_sum(x.x, x.y, x.z, low.x, high.x, low.y, high.y, low.z, high.z),
        y: cell_square::low_sum(y.x, y.y, y.z, low.x, high.x, low.y, high.y, low.z, high.z),
        z: cell_square::low_sum(z.x, z.y, z.z, low.x, high.x, low.y, high.y, low.z, high.z),
    }
}

fn greatest_rows(x: Vec3, y: Vec3, z: Vec3, low: Vec3, high: Vec3) -> Vec3
    ensures { result ≡ greatest_rows x y z low high }
{
    Vec3 {
        x: cell_square::high_sum(x.x, x.y, x.z, low.x, high.x, low.y, high.y, low.z, high.z),
        y: cell_square::high_sum(y.x, y.y, y.z, low.x, high.x, low.y, high.y, low.z, high.z),
        z: cell_square::high_sum(z.x, z.y, z.z, low.x, high.x, low.y, high.y, low.z, high.z),
    }
}

// Whether the fractions from low up to high are their own nearest, on each axis: the common case, which asks less.
fn is_level(s: Sight, w: Bounds, low: Vec3, high: Vec3) -> bool
    ensures { result ≡ is_level s w low high }
{
    w.sound
        & is_tilted(s)
        & cell_square::is_calm(1.0, low.x, high.x)
        & cell_square::is_calm(1.0, low.y, high.y)
        & cell_square::is_calm(1.0, low.z, high.z)
}

// Whether one step takes them all to their nearest, and that step. Nothing is said of `beyond` yet.
fn slant_of(s: Sight, w: Bounds, low: Vec3, high: Vec3) -> Reach
    requires { FitEnds low high }
    ensures { SlantSays s w low high result }
{
    if is_level(s, w, low, high) {
        return Reach {
            single: true,
            still: false,
            step: vectors::zero(),
            beyond: false,
        };
    }
    let step = Vec3 {
        x: cell_square::step_by(1.0, low.x, high.x),
        y: cell_square::step_by(1.0, low.y, high.y),
        z: cell_square::step_by(1.0, low.z, high.z),
    };
    Reach {
        single: w.sound
            & is_tilted(s)
            & cell_square::is_steady(1.0, low.x, high.x)
            & cell_square::is_steady(1.0, low.y, high.y)
            & cell_square::is_steady(1.0, low.z, high.z),
        still: false,
        step: step,
        beyond: false,
    }
}

// Whether the images of all nearest fractions from low up to high are out of sight, by the matrix' rows.
fn is_outside(s: Sight, low: Vec3, high: Vec3) -> bool
    ensures { result ≡ is_outside s low high }
{
    let l = s.prepared.lattice;
    let x = Vec3 {
        x: l.a.x,
        y: l.b.x,
        z: l.c.x,
    };
    let y = Vec3 {
        x: l.a.y,
        y: l.b.y,
        z: l.c.y,
    };
    let z = Vec3 {
        x: l.a.z,
        y: l.b.z,
        z: l.c.z,
    };
    let from = least_rows(x, y, z, low, high);
    let to = greatest_rows(x, y, z, low, high);
    // six numbers by one test: a sum is finite only of finite numbers
    let all = (to.x - from.x) + (to.y - from.y) + (to.z - from.z);
    let gap = Vec3 {
        x: cell_square::nearer(from.x, to.x),
        y: cell_square::nearer(from.y, to.y),
        z: cell_square::nearer(from.z, to.z),
    };
    (float::abs(all) < 1e300) & !(vectors::norm2(gap) <= s.limit)
}

// In a tilted cell, by the fractions' bounds.
pub(crate) fn tilted_reach(s: Sight, a: Vec3, w: Bounds) -> Reach
    ensures { ReachSays slope_sees s a w result }
{
    let from = vectors::sub(a, w.hi);
    let to = vectors::sub(a, w.lo);
    let g = s.prepared.general;
    let low = least_rows(g.ix, g.iy, g.iz, from, to);
    let high = greatest_rows(g.ix, g.iy, g.iz, from, to);
    let r = slant_of(s, w, low, high);
    let step = r.step;
    Reach {
        single: r.single,
        still: false,
        step: step,
        beyond: r.single & is_outside(s, vectors::add(low, step), vectors::add(high, step)),
    }
}

fn reach_of(s: Sight, a: Vec3, w: Bounds) -> Reach
    ensures { ReachSays stepped_sees s a w result }
{
    if is_still(s, a, w) {
        let none = Vec3 {
            x: 0.0,
            y: 0.0,
            z: 0.0,
        };
        return Reach {
            single: true,
            still: true,
            step: none,
            beyond: is_beyond(s, none, a, w),
        };
    }
    let single = is_single(s, a, w);
    let step = step_of(s, a, w);
    Reach {
        single: single,
        still: false,
        step: step,
        beyond: single & is_beyond(s, step, a, w),
    }
}

// One step for all places within v and all within w, asked once for two bins. Nothing is said of `beyond`: each atom asks that.
pub(crate) fn shared_of(s: Sight, v: Bounds, w: Bounds) -> Reach
    ensures { SharedSays s v w result }
{
    let l = s.prepared.short;
    let step = Vec3 {
        x: cell_square::step_by(l.x, v.lo.x - w.hi.x, v.hi.x - w.lo.x),
        y: cell_square::step_by(l.y, v.lo.y - w.hi.y, v.hi.y - w.lo.y),
        z: cell_square::step_by(l.z, v.lo.z - w.hi.z, v.hi.z - w.lo.z),
    };
    Reach {
        single: v.sound
            & w.sound
            & is_bounded(l)
            & cell_square::shared_steady(l.x, v.lo.x, v.hi.x, w.lo.x, w.hi.x)
            & cell_square::shared_steady(l.y, v.lo.y, v.hi.y, w.lo.y, w.hi.y)
            & cell_square::shared_steady(l.z, v.lo.z, v.hi.z, w.lo.z, w.hi.z),
        still: cell_square::is_calm(l.x, v.lo.x - w.hi.x, v.hi.x - w.lo.x)
            & cell_square::is_calm(l.y, v.lo.y - w.hi.y, v.hi.y - w.lo.y)
            & cell_square::is_calm(l.z, v.lo.z - w.hi.z, v.hi.z - w.lo.z),
        step: step,
        beyond: false,
    }
}

// What the bounds say to an atom of the one bin by the shared step.
pub(crate) fn reach_shared(s: Sight, a: Vec3, w: Bounds, p: Reach) -> Reach
    requires { SharedAt s a w p × (p.single ≡ true) }
    ensures { ReachSays stepped_sees s a w result × (result.single ≡ true) }
{
    let step = p.step;
    Reach {
        single: true,
        still: p.still,
        step: step,
        beyond: is_beyond(s, step, a, w),
    }
}

// .. or by a step of its own, where there is none.
pub(crate) fn reach_by(s: Sight, a: Vec3, w: Bounds, p: Reach) -> Reach
    requires { SharedAt s a w p }
    ensures { ReachSays stepped_sees s a w result }
{
    if p.single {
        return reach_shared(s, a, w, p);
    }
    reach_of(s, a, w)
}

// b - a, so that no instruction copies a for each of them: the square is that of a - b, with the step added.
fn stepped_sees(s: Sight, a: Vec3, p: Vec3, b: Vec3) -> bool
    ensures { result ≡ stepped_sees s a p b }
{
    let d = Vec3 {
        x: (b.x - a.x) - p.x,
        y: (b.y - a.y) - p.y,
        z: (b.z - a.z) - p.z,
    };
    vectors::norm2(d) <= s.limit
}

fn still_sees(s: Sight, a: Vec3, p: Vec3, b: Vec3) -> bool
    ensures { result ≡ still_sees s a p b }
{
    vectors::norm2(vectors::sub(b, a)) <= s.limit
}

fn slanted_sees(s: Sight, a: Vec3, p: Vec3, b: Vec3) -> bool
    ensures { result ≡ slanted_sees s a p b }
{
    let f = fractions(s, vectors::sub(a, b));
    let l = s.prepared.lattice;
    vectors::norm2(matrices::times(matrices::matrix(l), vectors::add(f, p))) <= s.limit
}

// The first vector along x, the second in the plane of x and y: then the products with the zeros are left out.
fn is_upper(s: Sight) -> bool
    ensures { result ≡ is_upper s }
{
    let l = s.prepared.lattice;
    let g = s.prepared.general;
    (l.a.y == 0.0)
        & (l.a.z == 0.0)
        & (l.b.z == 0.0)
        & (g.iy.x == 0.0)
        & (g.iz.x == 0.0)
        & (g.iz.y == 0.0)
}

fn upper_sees(s: Sight, a: Vec3, p: Vec3, b: Vec3) -> bool
    ensures { result ≡ upper_sees s a p b }
{
    let g = s.prepared.general;
    let l = s.prepared.lattice;
    let d = vectors::sub(a, b);
    let n = Vec3 {
        x: vectors::dot(g.ix, d) + p.x,
        y: g.iy.y * d.y + g.iy.z * d.z + p.y,
        z: g.iz.z * d.z + p.z,
    };
    let q = Vec3 {
        x: l.a.x * n.x + l.b.x * n.y + l.c.x * n.z,
        y: l.b.y * n.y + l.c.y * n.z,
        z: l.c.z * n.z,
    };
    vectors::norm2(q) <= s.limit
}

// Which of a part's atoms, from `from` on, atom i sees, which is at a. By one step for all of them there is nothing else to ask.
fn flag_stepped(
    s: Sight,
    i: u32,
    a: Vec3,
    r: Reach,
    from: usize,
    part: &[u32],
    bx: &[f64],
    by: &[f64],
    bz: &[f64],
    flags: &mut [usize],
)
    requires { (from ≤ length part.now) × (length part.now ≤ 64) × SideRooms bx.now by.now bz.now × (length flags.old ≡ 64) × Reaches stepped_sees s a bx.now by.now bz.now (length part.now) r × (r.single ≡ true) }
    ensures { Flagged s i a part.now bx.now by.now bz.now from (length part.now) flags.new }
{
    for k in from..part.len() {
        let b = Vec3 {
            x: bx[k],
            y: by[k],
            z: bz[k],
        };
        flags[k] = one(stepped_sees(s, a, r.step, b));
    }
}

// .. by a step of nothing.
fn flag_still(
    s: Sight,
    i: u32,
    a: Vec3,
    r: Reach,
    from: usize,
    part: &[u32],
    bx: &[f64],
    by: &[f64],
    bz: &[f64],
    flags: &mut [usize],
)
    requires { (from ≤ length part.now) × (length part.now ≤ 64) × SideRooms bx.now by.now bz.now × (length flags.old ≡ 64) × Reaches still_sees s a bx.now by.now bz.now (length part.now) r × (r.single ≡ true) }
    ensures { Flagged s i a part.now bx.now by.now bz.now from (length part.now) flags.new }
{
    for k in from..part.len() {
        let b = Vec3 {
            x: bx[k],
            y: by[k],
            z: bz[k],
        };
        flags[k] = one(still_sees(s, a, r.step, b));
    }
}

// .. in a tilted cell.
fn flag_slanted(
    s: Sight,
    i: u32,
    a: Vec3,
    r: Reach,
    from: usize,
    part: &[u32],
    bx: &[f64],
    by: &[f64],
    bz: &[f64],
    flags: &mut [usize],
)
    requires { (from ≤ length part.now) × (length part.now ≤ 64) × SideRooms bx.now by.now bz.now × (length flags.old ≡ 64) × Reaches slope_sees s a bx.now by.now bz.now (length part.now) r × (r.single ≡ true) × (is_upper s ≡ false) }
    ensures { Flagged s i a part.now bx.now by.now bz.now from (length part.now) flags.new }
{
    for k in from..part.len() {
        let b = Vec3 {
            x: bx[k],
            y: by[k],
            z: bz[k],
        };
        flags[k] = one(slanted_sees(s, a, r.step, b));
    }
}

fn flag_upper(
    s: Sight,
    i: u32,
    a: Vec3,
    r: Reach,
    from: usize,
    part: &[u32],
    bx: &[f64],
    by: &[f64],
    bz: &[f64],
    flags: &mut [usize],
)
    requires { (from ≤ length part.now) × (length part.now ≤ 64) × SideRooms bx.now by.now bz.now × (length flags.old ≡ 64) × Reaches slope_sees s a bx.now by.now bz.now (length part.now) r × (r.single ≡ true) × (is_upper s ≡ true) }
    ensures { Flagged s i a part.now bx.now by.now bz.now from (length part.now) flags.new }
{
    for k in from..part.len() {
        let b = Vec3 {
            x: bx[k],
            y: by[k],
            z: bz[k],
        };
        flags[k] = one(upper_sees(s, a, r.step, b));
    }
}

fn flag_box(
    s: Sight,
    i: u32,
    a: Vec3,
    from: usize,
    part: &[u32],
    bx: &[f64],
    by: &[f64],
    bz: &[f64],
    flags: &mut [usize],
) -> bool
    requires { (from ≤ length part.now) × (length part.now ≤ 64) × SideRooms bx.now by.now bz.now × (length flags.old ≡ 64) }
    ensures { Flags s i a part.now bx.now by.now bz.now from (length part.now) flags.new result }
{
    let mut ok = true;
    for k in from..part.len() {
        let b = Vec3 {
            x: bx[k],
            y: by[k],
            z: bz[k],
        };
        flags[k] = one(box_sees(s, a, b));
        ok = ok & box_holds(s, a, b);
    }
    ok
}

// a - b for all of them: b - a is seen where it is.
fn flag_tilted(
    s: Sight,
    i: u32,
    a: Vec3,
    from: usize,
    part: &[u32],
    bx: &[f64],
    by: &[f64],
    bz: &[f64],
    flags: &mut [usize],
) -> bool
    requires { (from ≤ length part.now) × (length part.now ≤ 64) × SideRooms bx.now by.now bz.now × (length flags.old ≡ 64) }
    ensures { Flags s i a part.now bx.now by.now bz.now from (length part.now) flags.new result }
{
    let mut ok = true;
    for k in from..part.len() {
        let d = Vec3 {
            x: a.x - bx[k],
            y: a.y - by[k],
            z: a.z - bz[k],
        };
        flags[k] = one(tilted_sees(s, d));
        ok = ok & tilted_holds(s, d);
    }
    ok
}

// .. in a box, by one step.
pub(crate) fn flag_single(
    s: Sight,
    i: u32,
    a: Vec3,
    from: usize,
    part: &[u32],
    bx: &[f64],
    by: &[f64],
    bz: &[f64],
    flags: &mut [usize],
    r: Reach,
)
    requires { (from ≤ length part.now) × (length part.now ≤ 64) × SideRooms bx.now by.now bz.now × (length flags.old ≡ 64) × Reaches stepped_sees s a bx.now by.now bz.now (length part.now) r × (r.single ≡ true) }
    ensures { Flagged s i a part.now bx.now by.now bz.now from (length part.now) flags.new }
{
    if r.still {
        flag_still(s, i, a, r, from, part, bx, by, bz, flags);
        return;
    }
    flag_stepped(s, i, a, r, from, part, bx, by, bz, flags);
}

pub(crate) fn flag(
    s: Sight,
    i: u32,
    a: Vec3,
    from: usize,
    part: &[u32],
    bx: &[f64],
    by: &[f64],
    bz: &[f64],
    flags: &mut [usize],
    r: Reach,
) -> bool
    requires { (from ≤ length part.now) × (length part.now ≤ 64) × SideRooms bx.now by.now bz.now × (length flags.old ≡ 64) × Reaches stepped_sees s a bx.now by.now bz.now (length part.now) r }
    ensures { Flags s i a part.now bx.now by.now bz.now from (length part.now) flags.new result }
{
    if r.single {
        flag_single(s, i, a, from, part, bx, by, bz, flags, r);
        return true;
    }
    flag_box(s, i, a, from, part, bx, by, bz, flags)
}

pub(crate) fn flag_skewed(
    s: Sight,
    i: u32,
    a: Vec3,
    from: usize,
    part: &[u32],
    bx: &[f64],
    by: &[f64],
    bz: &[f64],
    flags: &mut [usize],
    r: Reach,
) -> bool
    requires { (from ≤ length part.now) × (length part.now ≤ 64) × SideRooms bx.now by.now bz.now × (length flags.old ≡ 64) × Reaches slope_sees s a bx.now by.now bz.now (length part.now) r }
    ensures { Flags s i a part.now bx.now by.now bz.now from (length part.now) flags.new result }
{
    if r.single {
        if is_upper(s) {
            flag_upper(s, i, a, r, from, part, bx, by, bz, flags);
            return true;
        }
        flag_slanted(s, i, a, r, from, part, bx, by, bz, flags);
        return true;
    }
    // without an inverse, or open on an axis: no loop in vain
    if !is_tilted(s) {
        return false;
    }
    flag_tilted(s, i, a, from, part, bx, by, bz, flags)
}

// Those that are flagged, to the room's front; how many they are. Each is written, and stays where its flag is 1.
pub(crate) fn gather(from: usize, part: &[u32], flags: &[usize], room: &mut [u32]) -> usize
    requires { (from ≤ length part.now) × (length part.now ≤ 64) × (length flags.now ≡ 64) × (length room.old ≡ 64) × Bits part.now from flags.now }
    ensures { FlagsTaken part.now from flags.now result room.new }
{
    let mut count = 0;
    for k in from..part.len() {
        room[count] = part[k];
        count += flags[k];
    }
    count
}
