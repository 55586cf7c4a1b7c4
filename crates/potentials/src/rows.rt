// A block of a list's rows side by side, at most 128, in one slice: how the atoms of row t lie to each other, x at t, y at 128 + t, z at 256 + t, and their
// squared distance at 384 + t. In a box the images are made in loops that have no call and no branch, so that two rows go in an instruction, and each axis by
// itself: most blocks cross the box on one axis or on none, and an axis that is not crossed is only looked at.
ghost use Rattle.std.specs.Prelude.{◌≡◌, ◌+◌, ◌-◌, ◌/◌, ◌≤◌, ◌<◌, length};
ghost use mathlib.Core.List.{foldl};
ghost use Rattle.lists.specs.Lists.{up_to};
ghost use Rattle.cell.specs.Vec.{norm2_of};
ghost use Rattle.potentials_pair.specs.Pull.{held};
ghost use Rattle.potentials.specs.Rows.{way_of, set_row, Rowed, DifferSays, AxisSays, AllInner, Squared, BoxTurned, RowedSays, RowsThere, kept_step};

use crate::pairs;
use cell::Vec3;
use cell_prepared::Prepared;
use virial::Sum;

// In a function of its own, so that no proof writes out its numbers.
pub(crate) fn blank_ways() -> [f64; 512]
    ensures { length result ≡ 512 }
{
    [0.0; 512]
}

pub(crate) fn blank_kept() -> [usize; 128]
    ensures { length result ≡ 128 }
{
    [0usize; 128]
}

// The differences of n rows from `from` on, as they stand. Not where one names an atom that is not there.
fn lay(xs: &[f64], table: &[u32], from: usize, n: usize, ways: &mut [f64]) -> bool
    requires { (n ≤ 128) × (from + n ≤ length table.now / 2) × (length ways.old ≡ 512) }
    ensures { DifferSays xs.now table.now from n ways.new result }
{
    for t in 0..n {
        let i = pairs::first_of(table, from + t);
        let j = pairs::second_of(table, from + t);
        if pairs::is_absent(xs.len() / 3, i, j) {
            return false;
        }
        let d = cell::vectors::sub(pairs::spot_at(xs, i), pairs::spot_at(xs, j));
        ways[t] = d.x;
        ways[128 + t] = d.y;
        ways[256 + t] = d.z;
    }
    true
}

// Adds a 0 to each of the n numbers from place o on, as an image has it where it takes nothing off, and says whether that is so for each.
fn settle(len: f64, o: usize, n: usize, ways: &mut [f64]) -> bool
    requires { (o ≤ 256) × (n ≤ 128) × (length ways.old ≡ 512) }
    ensures { AllInner len o n ways.old ways.new result }
{
    let mut ok = true;
    for t in 0..n {
        let x = ways[o + t];
        ok = ok & cell_prepared::is_inner(len, x);
        ways[o + t] = cell_prepared::settled(x);
    }
    ok
}

// The short way for each of them, and whether it was right for all.
fn all_near(len: f64, o: usize, n: usize, ways: &mut [f64]) -> bool
    requires { (o ≤ 256) × (n ≤ 128) × (length ways.old ≡ 512) }
    ensures { AxisSays len o n ways.old ways.new result }
{
    let mut ok = true;
    for t in 0..n {
        let x = ways[o + t];
        ok = ok & (float::abs(x) < len);
        ways[o + t] = cell_axis::near(len, x);
    }
    ok
}

fn turn_axis(len: f64, o: usize, n: usize, ways: &mut [f64]) -> bool
    requires { (o ≤ 256) × (n ≤ 128) × (length ways.old ≡ 512) }
    ensures { AxisSays len o n ways.old ways.new result }
{
    if settle(len, o, n, ways) {
        return true;
    }
    all_near(len, o, n, ways)
}

fn square_all(n: usize, ways: &mut [f64])
    requires { (n ≤ 128) × (length ways.old ≡ 512) }
    ensures { Squared n ways.old ways.new }
{
    for t in 0..n {
        let d = Vec3 {
            x: ways[t],
            y: ways[128 + t],
            z: ways[256 + t],
        };
        ways[384 + t] = cell::vectors::norm2(d);
    }
}

// The images in a box of lengths s, and whether all were short.
fn turn_all(s: Vec3, n: usize, ways: &mut [f64]) -> bool
    requires { (n ≤ 128) × (length ways.old ≡ 512) }
    ensures { BoxTurned s n ways.old ways.new result }
{
    let x = turn_axis(s.x, 0, n, ways);
    let y = turn_axis(s.y, 128, n, ways);
    let z = turn_axis(s.z, 256, n, ways);
    square_all(n, ways);
    x & y & z
}

// Atoms that have come out of the box are not short: where the block before was not laid so, only each eighth is tried.
fn is_tried(went: bool, from: usize) -> bool {
    went | (from / 128 % 8 == 0)
}

// In a box, where every atom is there and every difference is short.
fn lay_short(
    p: Prepared,
    xs: &[f64],
    table: &[u32],
    from: usize,
    n: usize,
    ways: &mut [f64],
    went: bool,
) -> bool
    requires { (n ≤ 128) × (from + n ≤ length table.now / 2) × (length ways.old ≡ 512) }
    ensures { RowedSays p xs.now table.now from n ways.new result }
{
    let s = p.short;
    let tried = is_tried(went, from);
    if !(tried & (0.0 < s.x)) {
        return false;
    }
    if !lay(xs, table, from, n, ways) {
        return false;
    }
    turn_all(s, n, ways)
}

fn way_of(p: Prepared, xs: &[f64], i: usize, j: usize) -> Vec3
    ensures { result ≡ way_of p xs.now (i, j) }
{
    if pairs::is_absent(xs.len() / 3, i, j) {
        return cell::vectors::zero();
    }
    pairs::quick_displacement(p, xs, i, j)
}

fn put_row(t: usize, d: Vec3, ways: &mut [f64])
    requires { (t < 128) × (length ways.old ≡ 512) }
    ensures { ways.new ≡ set_row ways.old t d (norm2_of d) }
{
    ways[t] = d.x;
    ways[128 + t] = d.y;
    ways[256 + t] = d.z;
    ways[384 + t] = cell::vectors::norm2(d);
}

// One row after the other, in any cell.
fn lay_each(p: Prepared, xs: &[f64], table: &[u32], from: usize, n: usize, ways: &mut [f64])
    requires { (n ≤ 128) × (from + n ≤ length table.now / 2) × (length ways.old ≡ 512) }
    ensures { Rowed p xs.now table.now from n ways.new }
{
    for t in 0..n {
        let i = pairs::first_of(table, from + t);
        let j = pairs::second_of(table, from + t);
        let d = way_of(p, xs, i, j);
        put_row(t, d, ways);
    }
}

// The rows from `from` up to `to`. Whether it went by the loops for a box; `went`: whether that was so for the block before.
pub(crate) fn lay_rows(
    p: Prepared,
    xs: &[f64],
    table: &[u32],
    from: usize,
    to: usize,
    ways: &mut [f64],
    went: bool,
) -> bool
    requires { (from ≤ to) × (to ≤ from + 128) × (to ≤ length table.now / 2) × (length ways.old ≡ 512) }
    ensures { Rowed p xs.now table.now from (to - from) ways.new }
{
    let n = to - from;
    if lay_short(p, xs, table, from, n, ways, went) {
        return true;
    }
    lay_each(p, xs, table, from, n, ways);
    false
}

// What place m of those that are kept adds.
fn add(
    m: usize,
    n: usize,
    table: &[u32],
    from: usize,
    kept: &[usize],
    ways: &[f64],
    pulls: &[f64],
    forces: &mut [f64],
    sum: Sum,
) -> Sum
    requires { (m < n) × RowsThere table.now from kept.now n × (length ways.now ≡ 512) × (length pulls.now ≡ 256) }
    ensures { held result forces.new ≡ kept_step table.now from kept.now ways.now pulls.now (held sum forces.old) m }
{
    let t = kept[m];
    let d = Vec3 {
        x: ways[t],
        y: ways[128 + t],
        z: ways[256 + t],
    };
    let i = pairs::first_of(table, from + t);
    let j = pairs::second_of(table, from + t);
    let f = cell::vectors::scale(d, pulls[2 * m + 1]);
    let s = virial::kernel::with_energy(sum, pulls[2 * m]);
    virial::kernel::add_pair_force(s, forces, i, j, d, f)
}

// .. what the first n add, one after the other.
pub(crate) fn add_all(
    n: usize,
    table: &[u32],
    from: usize,
    kept: &[usize],
    ways: &[f64],
    pulls: &[f64],
    forces: &mut [f64],
    sum: Sum,
) -> Sum
    requires { RowsThere table.now from kept.now n × (length ways.now ≡ 512) × (length pulls.now ≡ 256) }
    ensures { held result forces.new ≡ foldl (kept_step table.now from kept.now ways.now pulls.now) (held sum forces.old) (up_to n) }
{
    let mut s = sum;
    for m in 0..n {
        s = add(m, n, table, from, kept, ways, pulls, forces, s);
    }
    s
}
