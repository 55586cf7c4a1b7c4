// Whether a list still stands in the cell that it was built in.
ghost use Rattle.field_structs.specs.Flat.{flat_yes_no};
ghost use Rattle.field_structs.specs.Shown.{Shown};
ghost use Rattle.field_structs.specs.Taken.{cell_of, state_of};
ghost use Rattle.neighbor.specs.Rebuild.{OutdatedSays};

use field_structs::{FlatCell, FlatState, FlatYesNo};

// Whether the list must be built anew for these positions in this cell: as `tyn_needs_rebuild` says, or the cell differs from the one that it was built in, in a bit
// of its nine numbers, in a flag, or in being present. Refusals 1, 2, 6, 3.
#[unsafe(no_mangle)]
pub extern "C" fn tyn_outdated(
    s: FlatState,
    cell: FlatCell,
    positions: &[f64],
    references: &[f64],
) -> FlatYesNo
    ensures { Shown flat_yes_no (OutdatedSays (state_of s) (cell_of cell) positions.now references.now) result }
{
    neighbor::outdated(s.into(), cell.into(), positions, references).into()
}
