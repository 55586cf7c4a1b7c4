// The grid of a float frame (neighbor.rs, `Grid::build`): which grid the atoms are laid into, if any, and the tables that hand out each cell's atoms.
// No public call: `lay` is total, and the crates above have tested what they lend.
#![tactic(auto)]

mod laying;
mod measuring;
mod planning;

ghost use Rattle.std.specs.Prelude.{◌≡◌, length};
ghost use Rattle.neighbor_grid.specs.Layout.{layout_of, starts_after, items_after};

use bins::{Grid, Plan};
use cell::Lattice;
use laying::place;
use measuring::measure_of;
use planning::plan_of;

// How the pairs are to be found: by a grid whose tables are laid, by all pairs, or not at all where there are too many cells. `Unfit` where the
// atoms are too many, or the items too few for them. `touching` counts the rows of the exclusion table whose two atoms' cells touch. No
// `Result`, since two of the cases are no failures.
#[derive(Drop)]
pub enum Layout {
    Unfit,
    AllPairs,
    TooMany,
    Laid { grid: Grid, touching: u64 },
}

// The layout of the atoms, and where it is `Laid` the grid tables: each cell's start, and the atoms cell by cell. Else the tables stay.
pub fn lay(
    cell: Option<Lattice>,
    radius: f64,
    positions: &[f64],
    table: &[u32],
    starts: &mut [u32],
    items: &mut [u32],
) -> Layout
    ensures value { result ≡ layout_of cell radius positions.now table.now (length starts.old) (length items.old) }
    ensures starts_after { starts.new ≡ starts_after cell radius positions.now starts.old items.old }
    ensures after { items.new ≡ items_after cell radius positions.now starts.old items.old }
{
    let n = positions.len() / 3;
    if (16384 < n) | (items.len() < n) {
        return Layout::Unfit;
    }
    let m = measure_of(cell, positions);
    let ruler = m.ruler;
    let p = plan_of(m, radius, starts.len());
    match p {
        Plan::AllPairs => Layout::AllPairs,
        Plan::TooMany => Layout::TooMany,
        Plan::Laid(g) => {
            let touching = place(ruler, g, positions, table, starts, items);
            Layout::Laid {
                grid: g,
                touching: touching,
            }
        }
    }
}
