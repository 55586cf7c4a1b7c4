// The exclusion rows that are candidates, counted. No public call: every function is total, on any table and any places.
ghost use Rattle.std.specs.Prelude.{◌≡◌, cond, ◌≤◌, ◌<◌, length};
ghost use Rattle.lists.specs.Lists.{rows};
ghost use Rattle.bins.specs.Axis.{follows, touch};
ghost use Rattle.bins.specs.Stencil.{touching as touchingOf};
ghost use Rattle.candidates.specs.Checks.{there, beside_in, cell_from, rows_below, rows_touching};

use bins::{Axis, Cell, Grid};

fn wide(x: u16) -> u64
    ensures { (result ≡ x) × (result < 65536) }
{
    x as u64
}

// Whether j is the bin after i, on a periodic axis also the first after the last.
fn is_after(a: Axis, i: u16, j: u16) -> bool
    ensures { result ≡ follows a i j }
{
    let next = wide(i) + 1;
    (wide(j) == next) | (a.round & ((next == wide(a.size)) & (j == 0)))
}

fn is_touching(a: Axis, i: u16, j: u16) -> bool
    ensures { result ≡ touch a i j }
{
    (i == j) | (is_after(a, i, j) | is_after(a, j, i))
}

// Whether two cells touch: on each axis.
pub fn touching(g: Grid, a: Cell, b: Cell) -> bool
    ensures { result ≡ touchingOf g a b }
{
    is_touching(g.x, a.x, b.x) & (is_touching(g.y, a.y, b.y) & is_touching(g.z, a.z, b.z))
}

fn number(x: u32) -> usize
    ensures { result ≡ x }
{
    x as usize
}

fn one(test: bool) -> u64
    ensures value { result ≡ cond test 1 0 }
    ensures upper_bound { result ≤ 1 }
{
    if test {
        return 1;
    }
    0
}

// Whether both atoms of a row are there.
fn is_there(n: usize, low: u32, high: u32) -> bool
    ensures { result ≡ there n (low, high) }
{
    (number(low) < n) & (number(high) < n)
}

// Whether both atoms of a row are there, and their cells touch.
fn is_beside(g: Grid, places: &[u32], low: u32, high: u32) -> bool
    ensures { result ≡ beside_in g (length places.now) (cell_from g places.now) (low, high) }
{
    if !is_there(places.len(), low, high) {
        return false;
    }
    let a = bins::kernel::home_of(g, number(places[number(low)]) as u64);
    let b = bins::kernel::home_of(g, number(places[number(high)]) as u64);
    touching(g, a, b)
}

// The rows whose two atoms are there.
pub fn rows_below(table: &[u32], n: usize) -> u64
    ensures { result ≡ rows_below n (rows table.now) }
{
    let mut count: u64 = 0;
    for k in 0..table.len() / 2 {
        count += one(is_there(n, table[2 * k], table[2 * k + 1]));
    }
    count
}

// The rows whose two atoms are there, in cells that touch; `places` has the place of each atom's cell in the grid's tables.
pub fn rows_touching(g: Grid, places: &[u32], table: &[u32]) -> u64
    ensures { result ≡ rows_touching g (length places.now) (cell_from g places.now) (rows table.now) }
{
    let mut count: u64 = 0;
    for k in 0..table.len() / 2 {
        count += one(is_beside(g, places, table[2 * k], table[2 * k + 1]));
    }
    count
}
