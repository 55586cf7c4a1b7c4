// The sweep over the cells of a grid: home cells by x, y, z, and for each the rows of the half stencil.
ghost use Rattle.std.specs.Prelude.{◌/◌, length};
ghost use Rattle.bins.specs.Stencil.{InGrid};
ghost use Rattle.bins.specs.Traversal.{visit, cell_pairs, pairs_of};
ghost use Rattle.bins.specs.Listing.{Ready};
ghost use Rattle.neighbor_listing.specs.Sides.{Framed};
ghost use Rattle.neighbor_listing.specs.Steps.{Swept, atoms_by, Lists};

use crate::loops::{consider_cross, consider_home};
use crate::side;
use crate::side::Bounds;
use crate::sight::Sight;
use bins::{Cell, Grid, Tally};

// A home cell, whose bounds are v, and one row of the stencil.
fn sweep_row(
    s: Sight,
    g: Grid,
    xs: &[f64],
    table: &[u32],
    tops: &[u32],
    pairs: &mut [u32],
    starts: &[u32],
    items: &[u32],
    t: Tally,
    home: Cell,
    row: usize,
    v: Bounds,
) -> Tally
    requires swept { Swept g (length xs.now / 3) starts.now items.now }
    requires in_grid { InGrid g home }
    requires framed { Framed xs.now (atoms_by g starts.now items.now home) v }
    requires ready { Ready t (length (visit g (atoms_by g starts.now items.now) home row)) }
    ensures { Lists s xs.now tops.now table.now t pairs.old (visit g (atoms_by g starts.now items.now) home row) result pairs.new }
{
    let o = bins::kernel::offset_index(g, home, row);
    let Some(other) = o else {
        return t;
    };
    let mine = bins::atoms_in(bins::kernel::index(g, home) as usize, starts, items);
    if row == 0 {
        return consider_home(s, xs, table, tops, pairs, t, mine);
    }
    let theirs = bins::atoms_in(bins::kernel::index(g, other) as usize, starts, items);
    consider_cross(s, xs, table, tops, pairs, t, mine, theirs, v)
}

// A home cell and all rows: its bounds are asked once.
fn sweep_cell(
    s: Sight,
    g: Grid,
    xs: &[f64],
    table: &[u32],
    tops: &[u32],
    pairs: &mut [u32],
    starts: &[u32],
    items: &[u32],
    t: Tally,
    home: Cell,
) -> Tally
    requires swept { Swept g (length xs.now / 3) starts.now items.now }
    requires in_grid { InGrid g home }
    requires ready { Ready t (length (cell_pairs g (atoms_by g starts.now items.now) home)) }
    ensures { Lists s xs.now tops.now table.now t pairs.old (cell_pairs g (atoms_by g starts.now items.now) home) result pairs.new }
{
    let mine = bins::atoms_in(bins::kernel::index(g, home) as usize, starts, items);
    let v = side::bounds_at(xs, mine);
    let mut now = t;
    for row in 0..14 {
        now = sweep_row(
            s, g, xs, table, tops, pairs, starts, items, now, home, row, v,
        );
    }
    now
}

// All home cells.
pub(crate) fn sweep_all(
    s: Sight,
    g: Grid,
    xs: &[f64],
    table: &[u32],
    tops: &[u32],
    pairs: &mut [u32],
    starts: &[u32],
    items: &[u32],
    t: Tally,
) -> Tally
    requires swept { Swept g (length xs.now / 3) starts.now items.now }
    requires ready { Ready t (length (pairs_of g (atoms_by g starts.now items.now))) }
    ensures { Lists s xs.now tops.now table.now t pairs.old (pairs_of g (atoms_by g starts.now items.now)) result pairs.new }
{
    let count = bins::kernel::cell_count(g);
    let mut now = t;
    for h in 0..count {
        let home = bins::kernel::home_of(g, h);
        now = sweep_cell(s, g, xs, table, tops, pairs, starts, items, now, home);
    }
    now
}
