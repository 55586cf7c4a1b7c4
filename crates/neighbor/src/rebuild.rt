// Whether a list must be built anew, and the references that a build leaves.
ghost use Rattle.std.specs.Prelude.{◌≡◌, ◌-◌, ◌*◌, ◌/◌, ◌<◌, ◌≤◌, length};
ghost use Rattle.cell.specs.Vec.{position_at};
ghost use Rattle.float.specs.Arith.{at, ◌⊖◌};
ghost use Rattle.lists.specs.Lists.{some, every, numbers, up_to};
ghost use Rattle.lists.specs.Loops.{part_at};
ghost use Rattle.ranges.specs.Ranged.{within};
ghost use Rattle.neighbor.specs.Rebuild.{needs_of, outdated_of};
ghost use Rattle.neighbor.specs.Steps.{plain_of, RestSays};
ghost use Rattle.neighbor_asked.specs.Strays.{strayed, still, SmallEnough, quiet_at};

use crate::{State, asked, boxes, states};
use cell::{Lattice, Vec3, ranged};
use cell_prepared::Prepared;
use neighbor_asked::strays;

// A little less than the root of a third: a displacement of so much of the limit on each axis keeps to it (`is_enough` asks).
const THIRD: f64 = 0.57735;

fn spot_at(xs: &[f64], i: usize) -> Vec3
    requires { i < length xs.now / 3 }
    ensures { result ≡ position_at xs.now i }
{
    Vec3 {
        x: xs[3 * i],
        y: xs[3 * i + 1],
        z: xs[3 * i + 2],
    }
}

// One atom after the other, up to the first that has strayed.
fn some_far_long(p: Prepared, limit: f64, xs: &[f64], refs: &[f64], from: usize, to: usize) -> bool
    requires { (length xs.now ≤ length refs.now) × (to ≤ length xs.now / 3) }
    ensures { result ≡ some (λ k. strayed p limit (position_at xs.now k) (position_at refs.now k)) (numbers from (to - from)) }
{
    for i in from..to {
        if strays::is_far(p, limit, spot_at(xs, i), spot_at(refs, i)) {
            return true;
        }
    }
    false
}

// Every atom is looked at, so that the loop has no branch and takes two in an instruction.
fn all_still(p: Prepared, limit: f64, xs: &[f64], refs: &[f64], from: usize, to: usize) -> bool
    requires { (length xs.now ≤ length refs.now) × (to ≤ length xs.now / 3) }
    ensures { result ≡ every (λ k. still p limit (position_at xs.now k) (position_at refs.now k)) (numbers from (to - from)) }
{
    let mut ok = true;
    for i in from..to {
        ok = ok & strays::is_still(p, limit, spot_at(xs, i), spot_at(refs, i));
    }
    ok
}

// First the walk without a branch; the other where an atom has strayed, or is a length or more from its reference.
fn some_far_square(
    p: Prepared,
    limit: f64,
    xs: &[f64],
    refs: &[f64],
    from: usize,
    to: usize,
) -> bool
    requires { (length xs.now ≤ length refs.now) × (to ≤ length xs.now / 3) }
    ensures { result ≡ some (λ k. strayed p limit (position_at xs.now k) (position_at refs.now k)) (numbers from (to - from)) }
{
    if all_still(p, limit, xs, refs, from, to) {
        return false;
    }
    some_far_long(p, limit, xs, refs, from, to)
}

// Whether each number of these atoms is at most t from its reference: a difference, a magnitude and a comparison, two in an instruction too.
fn all_near(t: f64, xs: &[f64], refs: &[f64], from: usize, to: usize) -> bool
    requires { (length xs.now ≤ length refs.now) × (from ≤ to) × (to ≤ length xs.now / 3) }
    ensures { result ≡ every (λ k. within t (at xs.now k ⊖ at refs.now k)) (numbers (3 * from) (3 * to - 3 * from)) }
{
    let end = 3 * to;
    let mut ok = true;
    for k in 3 * from..end {
        ok = ok & ranges::is_within(t, xs[k] - refs[k]);
    }
    ok
}

// First the numbers alone: most often none is far from its reference, and nothing is squared.
fn some_far_near(
    p: Prepared,
    t: f64,
    limit: f64,
    xs: &[f64],
    refs: &[f64],
    from: usize,
    to: usize,
) -> bool
    requires { (length xs.now ≤ length refs.now) × (from ≤ to) × (to ≤ length xs.now / 3) × SmallEnough p limit t }
    ensures { result ≡ some (λ k. strayed p limit (position_at xs.now k) (position_at refs.now k)) (numbers from (to - from)) }
{
    if all_near(t, xs, refs, from, to) {
        return false;
    }
    some_far_square(p, limit, xs, refs, from, to)
}

fn end_of(from: usize, n: usize) -> usize
    requires { from < n }
    ensures { (from < result) × (result ≤ n) }
{
    if n - from < 64 { n } else { from + 64 }
}

// 64 atoms at a time, so that one which has come far costs no more than its block. `while`, since `end_of` says how far each turn goes: a `for` cannot jump.
fn some_far_blocks(p: Prepared, t: f64, limit: f64, xs: &[f64], refs: &[f64]) -> bool
    requires { (length xs.now ≤ length refs.now) × SmallEnough p limit t }
    ensures { result ≡ some (λ k. strayed p limit (position_at xs.now k) (position_at refs.now k)) (up_to (length xs.now / 3)) }
{
    let n = xs.len() / 3;
    let mut i = 0;
    while i < n {
        let to = end_of(i, n);
        if some_far_near(p, t, limit, xs, refs, i, to) {
            return true;
        }
        i = to;
    }
    false
}

// In a box by blocks, where t is enough for that.
fn some_far(p: Prepared, t: f64, limit: f64, xs: &[f64], refs: &[f64]) -> bool
    requires { length xs.now ≤ length refs.now }
    ensures { result ≡ some (λ k. strayed p limit (position_at xs.now k) (position_at refs.now k)) (up_to (length xs.now / 3)) }
{
    let n = xs.len() / 3;
    let l = p.short;
    if l.x <= 0.0 {
        return some_far_long(p, limit, xs, refs, 0, n);
    }
    if strays::is_enough(p, limit, t) {
        return some_far_blocks(p, t, limit, xs, refs);
    }
    some_far_square(p, limit, xs, refs, 0, n)
}

// `needs_rebuild` after its tests.
pub(crate) fn needs(s: State, cell: Option<Lattice>, xs: &[f64], refs: &[f64]) -> bool
    requires { length xs.now ≤ length refs.now }
    ensures { result ≡ needs_of s cell xs.now refs.now }
{
    if !asked::is_same(s.references, xs.len() / 3) {
        return true;
    }
    let skin = states::skin(s);
    if skin <= 0.0 {
        return true;
    }
    let limit = 0.5 * skin;
    some_far(
        cell_prepared::prepare(cell),
        THIRD * limit,
        limit * limit,
        xs,
        refs,
    )
}

// `outdated` after its tests.
pub(crate) fn outdated(s: State, cell: Option<Lattice>, xs: &[f64], refs: &[f64]) -> bool
    requires { length xs.now ≤ length refs.now }
    ensures { result ≡ outdated_of s cell xs.now refs.now }
{
    let remembered = s.built_in;
    if !boxes::is_same(remembered, cell) {
        return true;
    }
    needs(s, cell, xs, refs)
}

// What both questions ask beside the numbers, and that the references are as many as the atoms.
fn is_plain(s: State, cell: Option<Lattice>, xs: usize, refs: usize) -> bool
    ensures { result ≡ plain_of s cell xs refs }
{
    let n = xs / 3;
    let remembered = s.built_in;
    let bad = (xs % 3 != 0)
        | (refs < xs)
        | (16384 < n)
        | asked::claims_more(remembered, 0, 0, s.references, refs / 3);
    !bad & asked::is_same(s.references, n)
        & (neighbor_asked::asked::settings_ok(s.cutoff, s.skin) & ranged::cell_in_range(cell))
}

// Every number is looked at here too.
fn all_quiet(t: f64, xs: &[f64], refs: &[f64]) -> bool
    requires { length xs.now ≤ length refs.now }
    ensures { result ≡ every (λ k. quiet_at t (at xs.now k) (at refs.now k)) (up_to (length xs.now)) }
{
    let mut ok = true;
    for k in 0..xs.len() {
        ok = ok & strays::is_quiet(t, xs[k], refs[k]);
    }
    ok
}

// The common case of both questions, in one walk: nothing is refused, and no number is far from its reference. Where it says no, the question is still open.
pub(crate) fn is_at_rest(s: State, cell: Option<Lattice>, xs: &[f64], refs: &[f64]) -> bool
    ensures { RestSays s cell xs.now refs.now result }
{
    if !is_plain(s, cell, xs.len(), refs.len()) {
        return false;
    }
    let skin = states::skin(s);
    if skin <= 0.0 {
        return false;
    }
    let limit = 0.5 * skin;
    let t = THIRD * limit;
    if !strays::is_enough(cell_prepared::prepare(cell), limit * limit, t) {
        return false;
    }
    if !(t < 524288.0) {
        return false;
    }
    // a part first, so that little is lost where many have come far
    if !all_quiet(t, &xs[..xs.len() / 32], refs) {
        return false;
    }
    all_quiet(t, xs, refs)
}

// The positions, into the references.
pub(crate) fn refer(xs: &[f64], refs: &mut [f64])
    requires { length xs.now ≤ length refs.old }
    ensures { refs.new ≡ part_at (λ k _. at xs.now k) (length xs.now) refs.old }
{
    for k in 0..xs.len() {
        refs[k] = xs[k];
    }
}
