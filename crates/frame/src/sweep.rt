// The sweep over the cells of a grid: home cells by x, y, z, and for each the rows of the half stencil.
ghost use Rattle.std.specs.Prelude.{length};
ghost use Rattle.bins.specs.Stencil.{InGrid};
ghost use Rattle.bins.specs.Traversal.{visit, cell_pairs, pairs_of};
ghost use Rattle.bins.specs.Listing.{Ready};
ghost use Rattle.frame.specs.Steps.{Swept, atoms_by, Lists};

use crate::Frame;
use crate::listing::{consider_cross, consider_home};
use bins::{Cell, Grid, Tally};

// A home cell and one row of the stencil.
fn sweep_row(
    f: Frame,
    g: Grid,
    xs: &[u32],
    table: &[u32],
    pairs: &mut [u32],
    starts: &[u32],
    items: &[u32],
    t: Tally,
    home: Cell,
    s: usize,
) -> Tally
    requires swept { Swept f g xs.now starts.now items.now }
    requires in_grid { InGrid g home }
    requires ready { Ready t (length (visit g (atoms_by f xs.now) home s)) }
    ensures { Lists f xs.now table.now t pairs.old (visit g (atoms_by f xs.now) home s) result pairs.new }
{
    let o = bins::kernel::offset_index(g, home, s);
    let Some(other) = o else {
        return t;
    };
    let mine = bins::atoms_in(bins::kernel::index(g, home) as usize, starts, items);
    if s == 0 {
        return consider_home(f, xs, table, pairs, t, mine);
    }
    let theirs = bins::atoms_in(bins::kernel::index(g, other) as usize, starts, items);
    consider_cross(f, xs, table, pairs, t, mine, theirs)
}

// A home cell and all rows.
fn sweep_cell(
    f: Frame,
    g: Grid,
    xs: &[u32],
    table: &[u32],
    pairs: &mut [u32],
    starts: &[u32],
    items: &[u32],
    t: Tally,
    home: Cell,
) -> Tally
    requires swept { Swept f g xs.now starts.now items.now }
    requires in_grid { InGrid g home }
    requires ready { Ready t (length (cell_pairs g (atoms_by f xs.now) home)) }
    ensures { Lists f xs.now table.now t pairs.old (cell_pairs g (atoms_by f xs.now) home) result pairs.new }
{
    let mut now = t;
    for s in 0..14 {
        now = sweep_row(f, g, xs, table, pairs, starts, items, now, home, s);
    }
    now
}

// All home cells.
pub(crate) fn sweep_all(
    f: Frame,
    g: Grid,
    xs: &[u32],
    table: &[u32],
    pairs: &mut [u32],
    starts: &[u32],
    items: &[u32],
    t: Tally,
) -> Tally
    requires swept { Swept f g xs.now starts.now items.now }
    requires ready { Ready t (length (pairs_of g (atoms_by f xs.now))) }
    ensures { Lists f xs.now table.now t pairs.old (pairs_of g (atoms_by f xs.now)) result pairs.new }
{
    let count = bins::kernel::cell_count(g);
    let mut now = t;
    for h in 0..count {
        let home = bins::kernel::home_of(g, h);
        now = sweep_cell(f, g, xs, table, pairs, starts, items, now, home);
    }
    now
}
