// Clumps: which atoms hang together by listed pairs.
ghost use Rattle.clumps_answer.specs.Clumps.{SolveClumpsFits, SolveClumpsSays};
ghost use Rattle.clumps_answer.specs.Theorems.{SolveClumpsPrints};
ghost use Rattle.clumps_label.specs.Label.{LabelSays};
ghost use Rattle.field_structs.specs.Flat.{flat_whole};
ghost use Rattle.field_structs.specs.Shown.{Shown};

use field_structs::FlatWhole;

// Labels of count atoms by a list of pairs: the lowest atom that a chain of pairs reaches; the value is how many clumps. Refusals 1, 2, 4.
#[unsafe(no_mangle)]
pub extern "C" fn tyn_label(count: u32, pairs: &[u32], labels: &mut [u32]) -> FlatWhole
    ensures { Shown flat_whole (λ a. LabelSays count pairs.now labels.old a labels.new) result }
{
    clumps_label::label(count, pairs, labels).into()
}

// The printed clumps of a job sheet at the front of out (at least 11264 bytes); the value is their length. Refusal 1.
#[unsafe(no_mangle)]
pub extern "C" fn tyn_solve_clumps(input: &[u8], out: &mut [u8]) -> FlatWhole
    ensures { Shown flat_whole (λ a. SolveClumpsSays input.now out.old a out.new × (SolveClumpsFits input.now a out.new × SolveClumpsPrints input.now a)) result }
{
    clumps_answer::solve_clumps(input, out).into()
}
