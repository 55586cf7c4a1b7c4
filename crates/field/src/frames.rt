// The whole-number frame, and job sheets.
ghost use Rattle.field_structs.specs.Flat.{flat_built, flat_sheet, flat_whole};
ghost use Rattle.field_structs.specs.Shown.{Shown};
ghost use Rattle.field_structs.specs.Taken.{frame_of};
ghost use Rattle.frame.specs.Build.{BuildSays, given};
ghost use Rattle.frame.specs.Distance.{SquaredSays};
ghost use Rattle.frame.specs.Listed.{BuildLists};
ghost use Rattle.sheet.specs.Read.{ReadSays};
ghost use Rattle.sheet_answer.specs.Solve.{SolveFits, SolveSays};

use field_structs::{FlatBuilt, FlatFrame, FlatSheet, FlatWhole};
use frame::Spot;

// The exact squared distance of the nearest images of two atoms. Refusal 3.
#[unsafe(no_mangle)]
pub extern "C" fn tyn_squared_distance(f: FlatFrame, p: Spot, q: Spot) -> FlatWhole
    ensures { Shown flat_whole (SquaredSays (frame_of f) p q) result }
{
    frame::squared_distance(f.into(), p, q).into()
}

// The pairs within the radius that the exclusion table leaves. Refusals 1, 2, 3, 5, 7, 8.
#[unsafe(no_mangle)]
pub extern "C" fn tyn_frame_build(
    f: FlatFrame,
    coordinates: &[u32],
    exclusions: &[u32],
    pairs: &mut [u32],
    starts: &mut [u32],
    items: &mut [u32],
) -> FlatBuilt
    ensures { let i = given (frame_of f) coordinates.now exclusions.now pairs.old starts.old items.old in Shown flat_built (λ a. BuildSays i a pairs.new starts.new items.new × BuildLists i a pairs.new) result }
{
    frame::build(f.into(), coordinates, exclusions, pairs, starts, items).into()
}

// A job sheet: its numbers, with the coordinates (at least 3072 lent) and the exclusions (at least 2048 lent) in what is lent. Refusals 1, 9, 10, 8, 11,
// 2, 4.
#[unsafe(no_mangle)]
pub extern "C" fn tyn_read(
    input: &[u8],
    coordinates: &mut [u32],
    exclusions: &mut [u32],
) -> FlatSheet
    ensures { Shown flat_sheet (λ a. ReadSays input.now coordinates.old exclusions.old a coordinates.new exclusions.new) result }
{
    sheet::read(input, coordinates, exclusions).into()
}

// The printed answer of a job sheet at the front of out (at least 90133 bytes); the value is its length. Refusal 1.
#[unsafe(no_mangle)]
pub extern "C" fn tyn_solve(input: &[u8], out: &mut [u8]) -> FlatWhole
    ensures { Shown flat_whole (λ a. SolveSays input.now out.old a out.new × SolveFits input.now a out.new) result }
{
    sheet_answer::solve(input, out).into()
}
