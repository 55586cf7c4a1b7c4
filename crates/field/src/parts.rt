// Parts of lent tables, told by their first element and length.
ghost use Rattle.bins.specs.Sort.{atoms_in};
ghost use Rattle.bins.specs.Sort as Bins;
ghost use Rattle.exclusions.specs.Calls.{excluded_rows};
ghost use Rattle.exclusions.specs.Calls as Exclusions;
ghost use Rattle.neighbor.specs.Update.{listed_of, ListedSays};
ghost use Rattle.field_structs.specs.Taken.{state_of};
ghost use Rattle.field.specs.Parts.{PartSays, cell_start};

use field_structs::{FlatDone, FlatPart, FlatState};
use neighbor::State;

// The listed pairs: the part of the lent pairs that the state counts. Refusal 6.
#[unsafe(no_mangle)]
pub extern "C" fn tyn_listed(s: FlatState, pairs: &[u32]) -> FlatPart
    ensures { PartSays (ListedSays (state_of s) pairs.now) 0 (listed_of (state_of s) pairs.now) pairs.now result }
{
    let state = State::from(s);
    let done = FlatDone::from(neighbor::listed_asked(state, pairs));
    let part = neighbor::listed(state, pairs);
    FlatPart {
        done,
        start: 0,
        length: part.len(),
    }
}

// The excluded pairs: the first count rows of an exclusion table. Refusal 1.
#[unsafe(no_mangle)]
pub extern "C" fn tyn_excluded_rows(count: u32, table: &[u32]) -> FlatPart
    ensures { PartSays (Exclusions.ExcludedRowsAskedSays count table.now) 0 (excluded_rows count table.now) table.now result }
{
    let done = FlatDone::from(exclusions::excluded_rows_asked(count, table));
    let part = exclusions::excluded_rows(count, table);
    FlatPart {
        done,
        start: 0,
        length: part.len(),
    }
}

// The atoms of a grid cell: the part of items between two starts. Refusal 1.
#[unsafe(no_mangle)]
pub extern "C" fn tyn_atoms_in(cell: usize, starts: &[u32], items: &[u32]) -> FlatPart
    ensures { PartSays (Bins.AtomsAskedSays cell starts.now items.now) (cell_start cell starts.now items.now) (atoms_in cell starts.now items.now) items.now result }
{
    let asked = bins::atoms_in_asked(cell, starts, items);
    let done = FlatDone::from(asked);
    let part = bins::atoms_in(cell, starts, items);
    if let Err(_) = asked {
        return FlatPart {
            done,
            start: 0,
            length: 0,
        };
    }
    FlatPart {
        done,
        start: starts[cell] as usize,
        length: part.len(),
    }
}
