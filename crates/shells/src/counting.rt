// The listed pairs added to the totals of their shells. Where a total is full, what was added is taken back: two passes, and nothing more is lent.
ghost use Rattle.std.specs.Prelude.{◌≡◌, true, cond, not, ◌-◌, ◌/◌, ◌≤◌, ◌<◌, length, get_or, take};
ghost use Rattle.lists.specs.Lists.{rows};
ghost use Rattle.frame.specs.Distance.{spot_of, squared_of};
ghost use Rattle.frame.specs.Build.{ranges_ok};
ghost use Rattle.shells.specs.Shells.{shell_of, shell_at, totals_with, is_past};
ghost use Rattle.shells.specs.Steps.{Countable, AddedSome, totals_without};

use frame::{Frame, Spot};

fn spot(xs: &[u32], i: usize) -> Spot
    requires { i < length xs.now / 3 }
    ensures { result ≡ spot_of xs.now i }
{
    Spot {
        x: xs[3 * i],
        y: xs[3 * i + 1],
        z: xs[3 * i + 2],
    }
}

fn squared(f: Frame, xs: &[u32], i: u32, j: u32) -> u64
    requires { (ranges_ok f xs.now ≡ true) × (i < length xs.now / 3) × (j < length xs.now / 3) }
    ensures { result ≡ squared_of f (spot_of xs.now i) (spot_of xs.now j) }
{
    let d = frame::squared_distance(f, spot(xs, i as usize), spot(xs, j as usize));
    let Ok(square) = d else {
        return 0;
    };
    square
}

fn shell_of(width: u64, shells: usize, square: u64) -> usize
    requires { (0 < width) × (0 < shells) }
    ensures { (result ≡ shell_of width shells square) × (result < shells) }
{
    let whole = square / width;
    let last = shells - 1;
    if whole < last as u64 {
        return whole as usize;
    }
    last
}

// The shell of a listed pair, by its row.
fn shell_at(f: Frame, xs: &[u32], width: u64, shells: usize, pairs: &[u32], k: usize) -> usize
    requires { Countable f xs.now width shells pairs.now × (k < length pairs.now / 2) }
    ensures { (result ≡ shell_at f xs.now width shells (get_or (rows pairs.now) k (0, 0))) × (result < shells) }
{
    shell_of(
        width,
        shells,
        squared(f, xs, pairs[2 * k], pairs[2 * k + 1]),
    )
}

fn one_less(total: u64) -> u64
    ensures { result ≡ total - 1 }
{
    if total == 0 {
        return 0;
    }
    total - 1
}

// The pairs added one after the other, until all are or a total is full; how many were added.
fn add_some(f: Frame, xs: &[u32], width: u64, pairs: &[u32], totals: &mut [u64]) -> usize
    requires { Countable f xs.now width (length totals.old) pairs.now }
    ensures { AddedSome (shell_at f xs.now width (length totals.old)) (rows pairs.now) totals.old result totals.new }
{
    let shells = totals.len();
    let n = pairs.len() / 2;
    for k in 0..n {
        let s = shell_at(f, xs, width, shells, pairs, k);
        let total = totals[s];
        if total == 18446744073709551615 {
            return k;
        }
        totals[s] = total + 1;
    }
    n
}

// The first n pairs taken back.
fn take_back(f: Frame, xs: &[u32], width: u64, pairs: &[u32], totals: &mut [u64], n: usize)
    requires { Countable f xs.now width (length totals.old) pairs.now × (n ≤ length pairs.now / 2) }
    ensures { totals.new ≡ totals_without (shell_at f xs.now width (length totals.old)) (take n (rows pairs.now)) totals.old }
{
    let shells = totals.len();
    for k in 0..n {
        let s = shell_at(f, xs, width, shells, pairs, k);
        let less = one_less(totals[s]);
        totals[s] = less;
    }
}

// All pairs, or none where a total would pass 2^64 - 1: which of the two.
pub(crate) fn add(f: Frame, xs: &[u32], width: u64, pairs: &[u32], totals: &mut [u64]) -> bool
    requires { Countable f xs.now width (length totals.old) pairs.now }
    ensures value { result ≡ not (is_past (totals_with (shell_at f xs.now width (length totals.old)) (rows pairs.now) totals.old)) }
    ensures totals_after { totals.new ≡ cond result (totals_with (shell_at f xs.now width (length totals.old)) (rows pairs.now) totals.old) totals.old }
{
    let k = add_some(f, xs, width, pairs, totals);
    if k < pairs.len() / 2 {
        take_back(f, xs, width, pairs, totals, k);
        return false;
    }
    true
}
