// The pair list of a float frame (neighbor.rs), and exclusion tables.
ghost use Rattle.exclusions.specs.Calls.{ExcludeSays, SetSays};
ghost use Rattle.field_structs.specs.Flat.{flat_number, flat_state_answer, flat_updated, flat_whole, flat_yes_no};
ghost use Rattle.field_structs.specs.Shown.{Shown};
ghost use Rattle.field_structs.specs.Taken.{cell_of, state_of};
ghost use Rattle.neighbor.specs.Listed.{UpdateLists};
ghost use Rattle.neighbor.specs.Rebuild.{NeedsSays};
ghost use Rattle.neighbor.specs.State.{NewSays, RadiusSays, since_of};
ghost use Rattle.neighbor.specs.Update.{UpdateSays, given};
ghost use Rattle.neighbor.specs.declared.Question.TheVariants.{NeedsRebuild, Unasked};
ghost use Rattle.std.specs.Prelude.{◌≡◌};

use field_structs::{
    FlatCell, FlatNumber, FlatState, FlatStateAnswer, FlatUpdated, FlatWhole, FlatYesNo,
};

// A list with the given cutoff and skin: no pairs, references, checks, fallback, builds, and no cell that it was built in. Refusal 3.
#[unsafe(no_mangle)]
pub extern "C" fn tyn_new(cutoff: f64, skin: f64) -> FlatStateAnswer
    ensures { Shown flat_state_answer (NewSays cutoff skin) result }
{
    neighbor::new(cutoff, skin).into()
}

// The search radius, cutoff + skin. Refusal 3.
#[unsafe(no_mangle)]
pub extern "C" fn tyn_search_radius(s: FlatState) -> FlatNumber
    ensures { Shown flat_number (RadiusSays (state_of s)) result }
{
    neighbor::search_radius(s.into()).into()
}

// How many builds there were since an earlier reading of the counter, which comes round to zero after 2^32 - 1. The rest of the state is not looked at;
// no refusal.
#[unsafe(no_mangle)]
pub extern "C" fn tyn_builds_since(s: FlatState, earlier: u32) -> u32
    ensures { result ≡ since_of (state_of s) earlier }
{
    neighbor::builds_since(s.into(), earlier)
}

// One more pair of atoms in the first count rows of an exclusion table; the value is the new count. Refusals 1, 5, 8.
#[unsafe(no_mangle)]
pub extern "C" fn tyn_exclude(count: u32, i: u32, j: u32, table: &mut [u32]) -> FlatWhole
    ensures { Shown flat_whole (λ a. ExcludeSays count i j table.old a table.new) result }
{
    exclusions::exclude(count, i, j, table).into()
}

// The exclusion table of the raw pairs; the value is the count of its rows. Refusals 1, 8.
#[unsafe(no_mangle)]
pub extern "C" fn tyn_set_exclusions(raw: &[u32], table: &mut [u32]) -> FlatWhole
    ensures { Shown flat_whole (λ a. SetSays raw.now table.old a table.new) result }
{
    exclusions::set_exclusions(raw, table).into()
}

// Whether the list must be built anew for these positions. Refusals 1, 2, 6, 3.
#[unsafe(no_mangle)]
pub extern "C" fn tyn_needs_rebuild(
    s: FlatState,
    cell: FlatCell,
    positions: &[f64],
    references: &[f64],
) -> FlatYesNo
    ensures { Shown flat_yes_no (NeedsSays (state_of s) (cell_of cell) positions.now references.now) result }
{
    neighbor::needs_rebuild(s.into(), cell.into(), positions, references).into()
}

// The list built anew. Refusals 1, 2, 6, 3, 5, 7, 8.
#[unsafe(no_mangle)]
pub extern "C" fn tyn_build(
    s: FlatState,
    cell: FlatCell,
    positions: &[f64],
    exclusions: &[u32],
    pairs: &mut [u32],
    references: &mut [f64],
    starts: &mut [u32],
    items: &mut [u32],
) -> FlatUpdated
    ensures { let i = given (state_of s) (cell_of cell) positions.now exclusions.now pairs.old references.old starts.old items.old in Shown flat_updated (λ a. UpdateSays Unasked i a pairs.new references.new starts.new items.new × UpdateLists i a pairs.new) result }
{
    neighbor::build(
        s.into(),
        cell.into(),
        positions,
        exclusions,
        pairs,
        references,
        starts,
        items,
    )
    .into()
}

// The list built anew where it must be. Refusals 1, 2, 6, 3, 4, 5, 7, 8.
#[unsafe(no_mangle)]
pub extern "C" fn tyn_maybe_build(
    s: FlatState,
    cell: FlatCell,
    positions: &[f64],
    exclusions: &[u32],
    pairs: &mut [u32],
    references: &mut [f64],
    starts: &mut [u32],
    items: &mut [u32],
) -> FlatUpdated
    ensures { let i = given (state_of s) (cell_of cell) positions.now exclusions.now pairs.old references.old starts.old items.old in Shown flat_updated (λ a. UpdateSays NeedsRebuild i a pairs.new references.new starts.new items.new × UpdateLists i a pairs.new) result }
{
    neighbor::maybe_build(
        s.into(),
        cell.into(),
        positions,
        exclusions,
        pairs,
        references,
        starts,
        items,
    )
    .into()
}
