// The pairs of a float frame (neighbor.rs, `build_all_pairs`, `build_binned`, `consider`): what a build stores, counts and leaves in the grid tables.
// No public call: `list` is total, and the crates above have tested what they lend.
#![tactic(auto)]

mod loops;
mod running;
mod side;
mod sight;
mod sweep;
mod tops;

ghost use Rattle.std.specs.Prelude.{◌≡◌};
ghost use Rattle.neighbor_listing.specs.Listed.{outcome, listing_of};

use cell::Lattice;
use neighbor_grid::Layout;

// The pairs stored, the distances evaluated, and whether no grid was laid; or too many pairs for the room, of which the first are stored; or too many
// cells; or what the caller should have tested.
#[derive(Drop)]
pub enum Listed {
    Found {
        pairs: u32,
        checks: u32,
        fallback: bool,
    },
    Full {
        pairs: usize,
    },
    Crowded,
    Unfit,
}

// The pairs of the positions within the radius that the exclusion table leaves, into the lent pairs; the grid tables where a grid is laid.
pub fn list(
    cell: Option<Lattice>,
    radius: f64,
    positions: &[f64],
    table: &[u32],
    pairs: &mut [u32],
    starts: &mut [u32],
    items: &mut [u32],
) -> Listed
    ensures { outcome result pairs.new starts.new items.new ≡ listing_of cell radius positions.now table.now pairs.old starts.old items.old }
{
    if !exclusions::kernel::is_table(table) {
        return Listed::Unfit;
    }
    let o = neighbor_grid::lay(cell, radius, positions, table, starts, items);
    match o {
        Layout::Unfit => Listed::Unfit,
        Layout::AllPairs => running::run_plain(cell, radius, positions, table, pairs),
        Layout::TooMany => Listed::Crowded,
        Layout::Laid { grid: g, touching } => running::run_grid(
            cell, radius, g, touching, positions, table, pairs, starts, items,
        ),
    }
}
