// Written sheets, and sheets of either form.
ghost use Rattle.field_structs.specs.Flat.{flat_whole};
ghost use Rattle.field_structs.specs.FlatForms.{flat_formed, flat_moved};
ghost use Rattle.field_structs.specs.Shown.{Shown};
ghost use Rattle.field_structs.specs.Taken.{frame_of};
ghost use Rattle.sheet_answer.specs.Either.{SolveEitherSays, EitherFits};
ghost use Rattle.sheet_either.specs.Either.{EitherSays};
ghost use Rattle.sheet_moved.specs.Moved.{ToOneSays, ToTwoSays};
ghost use Rattle.sheet_rewritten.specs.Rewrite.{RewriteSays};
ghost use Rattle.sheet_written.specs.Write.{WriteSays};

use field_structs::{FlatFormed, FlatFrame, FlatWhole};

// The written form of a frame, its atoms and its exclusions at the front of out (43049 bytes are always enough); the value is its length. Refusals
// 1, 2, 3, 5, 8.
#[unsafe(no_mangle)]
pub extern "C" fn tyn_write(
    f: FlatFrame,
    coordinates: &[u32],
    exclusions: &[u32],
    out: &mut [u8],
) -> FlatWhole
    ensures { Shown flat_whole (λ a. WriteSays (frame_of f) coordinates.now exclusions.now out.old a out.new) result }
{
    sheet_written::write(f.into(), coordinates, exclusions, out).into()
}

// The written form of a job sheet, or the line of its refusal, at the front of out (at least 43049 bytes); the value is its length. Refusal 1.
#[unsafe(no_mangle)]
pub extern "C" fn tyn_rewrite(input: &[u8], out: &mut [u8]) -> FlatWhole
    ensures { Shown flat_whole (λ a. RewriteSays input.now out.old a out.new) result }
{
    sheet_rewritten::rewrite(input, out).into()
}

// A job sheet of either form: as tyn_read, with a species for each atom (at least 1024 lent), 0 on a sheet of the first form, and with its rule, 1 there
// and where a header doesn't say one. Refusals 1, 9, 10, 8, 11, 2, 4.
#[unsafe(no_mangle)]
pub extern "C" fn tyn_read_either(
    input: &[u8],
    coordinates: &mut [u32],
    species: &mut [u32],
    exclusions: &mut [u32],
) -> FlatFormed
    ensures { Shown flat_formed (λ a. EitherSays input.now coordinates.old species.old exclusions.old a coordinates.new species.new exclusions.new) result }
{
    sheet_either::read_either(input, coordinates, species, exclusions).into()
}

// A job sheet of the first form in the second, rule 1, each species 0, at the front of out (51243 bytes are always enough); the value is its length.
// Refusals: those of tyn_read, then 3, 8.
#[unsafe(no_mangle)]
pub extern "C" fn tyn_to_two(input: &[u8], out: &mut [u8]) -> FlatWhole
    ensures { Shown flat_whole (λ a. ToTwoSays input.now out.old a out.new) result }
{
    sheet_moved::to_two(input, out).into()
}

// A job sheet of the second form in the first, at the front of out (43049 bytes are always enough); the value is its length. Refusals: those of
// tyn_read, then 12 (the place is 0xffffffff where the rule is 2, else the lowest atom whose species is not 0), then 3, 8.
#[unsafe(no_mangle)]
pub extern "C" fn tyn_to_one(input: &[u8], out: &mut [u8]) -> FlatWhole
    ensures { Shown flat_moved (λ a. ToOneSays input.now out.old a out.new) result }
{
    sheet_moved::to_one(input, out).into()
}

// As tyn_solve, of a job sheet of either form. Refusal 1.
#[unsafe(no_mangle)]
pub extern "C" fn tyn_solve_either(input: &[u8], out: &mut [u8]) -> FlatWhole
    ensures { Shown flat_whole (λ a. SolveEitherSays input.now out.old a out.new × EitherFits input.now a out.new) result }
{
    sheet_answer::either::solve_either(input, out).into()
}
