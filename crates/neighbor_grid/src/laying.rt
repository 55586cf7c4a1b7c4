// Each atom's cell, and the atoms sorted by their cells into the lent tables.
ghost use Rattle.std.specs.Prelude.{◌≡◌, ◌++◌, ◌+◌, ◌/◌, ◌≤◌, ◌<◌, length, drop, pos};
ghost use Rattle.std.specs.Float.Ieee.{of_int};
ghost use Rattle.std.specs.Float.{binary64};
ghost use Rattle.lists.specs.Loops.{map_at};
ghost use Rattle.bins.specs.Stencil.{flatten, cells};
ghost use Rattle.bins.specs.Sort.{starts_of, items_of};
ghost use Rattle.lists.specs.Lists.{rows};
ghost use Rattle.candidates.specs.Checks.{rows_touching};
ghost use Rattle.neighbor_grid.specs.Grid.{bin_of, cell_in};
ghost use Rattle.neighbor_grid.specs.Steps.{Small, sizes_of, fraction_by, cell_by, place_by};

use crate::measuring::{Ruler, fraction, spot_at};
use bins::{Cell, Grid};
use cell::Vec3;

fn size_as_float(size: u16) -> f64
    ensures { result ≡ of_int binary64 (pos size) }
{
    size as f64
}

fn sizes(g: Grid) -> Vec3
    ensures { result ≡ sizes_of g }
{
    Vec3 {
        x: size_as_float(g.x.size),
        y: size_as_float(g.y.size),
        z: size_as_float(g.z.size),
    }
}

// The bin of a fraction; a fraction of 1 lies in the last.
fn bin_of(size: u16, wide: f64, f: f64) -> u16
    requires { (1 ≤ size) × (wide ≡ of_int binary64 (pos size)) }
    ensures { result ≡ bin_of size f }
{
    bins_rules::at_most(float::to_u64(f * wide), size - 1)
}

fn cell_of(g: Grid, wide: Vec3, f: Vec3) -> Cell
    requires { Small g × (wide ≡ sizes_of g) }
    ensures { result ≡ cell_in g f }
{
    Cell {
        x: bin_of(g.x.size, wide.x, f.x),
        y: bin_of(g.y.size, wide.y, f.y),
        z: bin_of(g.z.size, wide.z, f.z),
    }
}

// The place of the atom's cell in the tables.
fn place_of(ruler: Ruler, g: Grid, wide: Vec3, p: Vec3) -> u32
    requires { Small g × (wide ≡ sizes_of g) }
    ensures { result ≡ flatten g (cell_in g (fraction_by ruler p)) }
{
    bins::kernel::index(g, cell_of(g, wide, fraction(ruler, p))) as u32
}

// Each atom's place, computed once.
fn bin_atoms(ruler: Ruler, g: Grid, xs: &[f64], places: &mut [u32])
    requires { Small g × (length places.old ≤ length xs.now / 3) }
    ensures { places.new ≡ map_at (λ i _. place_by ruler g xs.now i) places.old }
{
    let wide = sizes(g);
    for (i, place) in places.iter_mut().enumerate() {
        *place = place_of(ruler, g, wide, spot_at(xs, i));
    }
}

// Room for the places of the most atoms that there can be; in a function of its own, so that no proof writes out its numbers.
fn blank() -> [u32; 16384]
    ensures { length result ≡ 16384 }
{
    [0u32; 16384]
}

// The atoms sorted by their cells into the lent tables. Returns how many rows of the exclusion table name two atoms whose cells touch.
pub(crate) fn place(
    ruler: Ruler,
    g: Grid,
    xs: &[f64],
    table: &[u32],
    starts: &mut [u32],
    items: &mut [u32],
) -> u64
    requires small { Small g }
    requires xs_len_bound { (length xs.now / 3 ≤ 16384) × (cells g < length starts.old) × (length xs.now / 3 ≤ length items.old) }
    ensures value { result ≡ rows_touching g (length xs.now / 3) (cell_by ruler g xs.now) (rows table.now) }
    ensures starts_after { starts.new ≡ starts_of (place_by ruler g xs.now) (length xs.now / 3) (cells g) ++ drop (cells g + 1) starts.old }
    ensures after { items.new ≡ items_of (place_by ruler g xs.now) (length xs.now / 3) (cells g) ++ drop (length xs.now / 3) items.old }
{
    let n = xs.len() / 3;
    let mut places = blank();
    bin_atoms(ruler, g, xs, &mut places[..n]);
    let count = bins::kernel::cell_count(g) as usize;
    bins::kernel::sort(&places[..n], count, starts, items);
    candidates::kernel::rows_touching(g, &places[..n], table)
}
