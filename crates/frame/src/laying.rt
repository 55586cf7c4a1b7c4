// Which grid a frame's atoms are laid into, if any, and each atom's cell in it.
ghost use Rattle.std.specs.Prelude.{◌≡◌, ◌+◌, ◌/◌, ◌≤◌, ◌<◌, length};
ghost use Rattle.bins.specs.Edge.{bins_on, bin_on};
ghost use Rattle.bins.specs.Stencil.{flatten, cells};
ghost use Rattle.bins.specs.Sort.{starts_sorted, items_sorted};
ghost use Rattle.candidates.specs.Checks.{cell_from, rows_touching};
ghost use Rattle.lists.specs.Lists.{rows};
ghost use Rattle.lists.specs.Loops.{map_at};
ghost use Rattle.frame.specs.Distance.{spot_of};
ghost use Rattle.frame.specs.Laying.{grid_of, cell_at, cell_of_spot, narrow, home_at};
ghost use Rattle.frame.specs.Build.{starts_laid, items_laid};
ghost use Rattle.frame.specs.Steps.{FrameSized, Inside, Framed, Gridded, plan_of};

use crate::{Frame, Side, Spot};
use bins::{Axis, Cell, Grid, Plan};

// floor(edge / radius), at least 1.
fn bins_on(edge: u32, radius: u32) -> u32
    requires { 0 < radius }
    ensures { (result ≡ bins_on edge radius) × (1 ≤ result) × (result ≤ edge + 1) }
{
    let n = edge / radius;
    if n < 1 { 1 } else { n }
}

// A periodic axis with fewer than three bins.
fn is_narrow(e: Side, radius: u32) -> bool
    requires { 0 < radius }
    ensures { result ≡ narrow e radius }
{
    let edge = e.edge;
    bins_rules::is_narrow(e.round, (edge as u64) / (radius as u64))
}

fn axis(e: Side, size: u32) -> Axis
    requires { size ≤ 32768 }
    ensures { result ≡ record { size = size; round = e.round } }
{
    Axis {
        size: size as u16,
        round: e.round,
    }
}

// The grid's three numbers of bins, or why there is none.
pub(crate) fn plan_of(f: Frame, starts: usize) -> Plan
    requires { FrameSized f }
    ensures { result ≡ plan_of f starts }
{
    let radius = f.radius;
    if radius == 0 {
        return Plan::AllPairs;
    }
    if is_narrow(f.x, radius) | is_narrow(f.y, radius) | is_narrow(f.z, radius) {
        return Plan::AllPairs;
    }
    let nx = bins_on(f.x.edge, radius);
    let ny = bins_on(f.y.edge, radius);
    let nz = bins_on(f.z.edge, radius);
    let cells = (nx as u64) * (ny as u64) * (nz as u64);
    if bins_rules::is_few(cells) {
        return Plan::AllPairs;
    }
    if (32768 < cells) | (starts as u64 <= cells) {
        return Plan::TooMany;
    }
    Plan::Laid(Grid {
        x: axis(f.x, nx),
        y: axis(f.y, ny),
        z: axis(f.z, nz),
    })
}

// floor(coordinate × bins / edge).
fn bin_on(edge: u32, bins: u16, c: u32) -> u16
    requires { c < edge }
    ensures { result ≡ bin_on edge bins c }
{
    ((c as u64) * (bins as u64) / (edge as u64)) as u16
}

fn cell_of(f: Frame, g: Grid, a: Spot) -> Cell
    requires g_value { g ≡ grid_of f }
    requires inside { Inside f a }
    ensures { result ≡ cell_of_spot f a }
{
    Cell {
        x: bin_on(f.x.edge, g.x.size, a.x),
        y: bin_on(f.y.edge, g.y.size, a.y),
        z: bin_on(f.z.edge, g.z.size, a.z),
    }
}

// The place of the atom's cell in the tables.
fn place_of(f: Frame, g: Grid, a: Spot) -> u32
    requires gridded { Gridded f g }
    requires inside { Inside f a }
    ensures { result ≡ flatten (grid_of f) (cell_of_spot f a) }
{
    bins::kernel::index(g, cell_of(f, g, a)) as u32
}

pub(crate) fn spot_at(xs: &[u32], i: usize) -> Spot
    requires { i < length xs.now / 3 }
    ensures { result ≡ spot_of xs.now i }
{
    Spot {
        x: xs[3 * i],
        y: xs[3 * i + 1],
        z: xs[3 * i + 2],
    }
}

// Each atom's place, computed once.
fn bin_atoms(f: Frame, g: Grid, xs: &[u32], places: &mut [u32])
    requires framed { Framed f xs.now × Gridded f g }
    requires places_in_bounds { length places.old ≤ length xs.now / 3 }
    ensures { places.new ≡ map_at (λ i _. home_at f xs.now i) places.old }
{
    for i in 0..places.len() {
        let p = place_of(f, g, spot_at(xs, i));
        places[i] = p;
    }
}

// Room for the places of the most atoms that there can be; in a function of its own, so that no proof writes out its numbers.
fn blank() -> [u32; 16384]
    ensures { length result ≡ 16384 }
{
    [0u32; 16384]
}

// The atoms sorted by their places into the lent tables; and the exclusion rows whose atoms' cells touch.
fn sort_in(g: Grid, places: &[u32], table: &[u32], starts: &mut [u32], items: &mut [u32]) -> u64
    ensures value { result ≡ rows_touching g (length places.now) (cell_from g places.now) (rows table.now) }
    ensures starts_after { starts.new ≡ starts_sorted places.now (cells g) starts.old items.old }
    ensures after { items.new ≡ items_sorted places.now (cells g) starts.old items.old }
{
    let count = bins::kernel::cell_count(g) as usize;
    bins::kernel::sort(places, count, starts, items);
    candidates::kernel::rows_touching(g, places, table)
}

// The atoms sorted by their cells into the lent tables; and the exclusion rows whose atoms' cells touch: only here are the atoms' places at hand.
pub(crate) fn lay(
    f: Frame,
    g: Grid,
    xs: &[u32],
    table: &[u32],
    starts: &mut [u32],
    items: &mut [u32],
) -> u64
    requires framed { Framed f xs.now × Gridded f g }
    requires xs_len_bound { (length xs.now / 3 ≤ 16384) × (cells g < length starts.old) × (length xs.now / 3 ≤ length items.old) }
    ensures value { result ≡ rows_touching (grid_of f) (length xs.now / 3) (cell_at f xs.now) (rows table.now) }
    ensures starts_after { starts.new ≡ starts_laid f xs.now starts.old }
    ensures after { items.new ≡ items_laid f xs.now items.old }
{
    let n = xs.len() / 3;
    let mut places = blank();
    bin_atoms(f, g, xs, &mut places[..n]);
    sort_in(g, &places[..n], table, starts, items)
}
