// The list brought up to date without tests, for the crates above. No public call: what does not fit is answered 1 with everything as it came.
ghost use Rattle.std.specs.Prelude.{◌≡◌, ◌/◌, ◌≤◌, true, length, Ok};
ghost use Rattle.float.specs.Arith.{at};
ghost use Rattle.lists.specs.Loops.{part_at};
ghost use Rattle.neighbor.specs.State.{built_of};
ghost use Rattle.neighbor.specs.Update.{given, shown, unfit, keeps_of, rebuilt_all, update_of};

use crate::{Question, State, Updated, rebuild, states};
use answer::Refusal;
use cell::Lattice;
use neighbor_listing::Listed;

// An answered build: the positions become the references.
fn answer(
    s: State,
    cell: Option<Lattice>,
    xs: &[f64],
    refs: &mut [f64],
    pairs: u32,
    checks: u32,
    fallback: bool,
) -> Updated
    requires { (length xs.now ≤ length refs.old) × (length xs.now / 3 ≤ 16384) }
    ensures value { result ≡ record { done = Ok tt; rebuilt = true; state = built_of s cell (length xs.now / 3) pairs checks fallback } }
    ensures refs_after { refs.new ≡ part_at (λ k _. at xs.now k) (length xs.now) refs.old }
{
    rebuild::refer(xs, refs);
    let n = (xs.len() / 3) as u32;
    Updated {
        done: Ok(()),
        rebuilt: true,
        state: states::built(s, cell, n, pairs, checks, fallback),
    }
}

// A build.
fn build(
    s: State,
    cell: Option<Lattice>,
    xs: &[f64],
    table: &[u32],
    pairs: &mut [u32],
    refs: &mut [f64],
    starts: &mut [u32],
    items: &mut [u32],
) -> Updated
    requires { (length xs.now ≤ length refs.old) × (length xs.now / 3 ≤ 16384) }
    ensures { shown result pairs.new refs.new starts.new items.new ≡ rebuilt_all (given s cell xs.now table.now pairs.old refs.old starts.old items.old) }
{
    if xs.len() / 3 < 2 {
        return answer(s, cell, xs, refs, 0, 0, false);
    }
    let found = neighbor_listing::list(cell, states::radius(s), xs, table, pairs, starts, items);
    match found {
        Listed::Found {
            pairs: count,
            checks,
            fallback,
        } => answer(s, cell, xs, refs, count, checks, fallback),
        Listed::Full { pairs: count } => states::full(s, count),
        Listed::Crowded => states::refused(s, Refusal::Cells),
        Listed::Unfit => states::refused(s, Refusal::Lengths),
    }
}

fn is_unfit(xs: usize, refs: usize) -> bool
    ensures { result ≡ unfit xs refs }
{
    (refs < xs) | (16384 < xs / 3)
}

// Whether a question is asked and the list need not be built anew.
fn is_kept(question: Question, s: State, cell: Option<Lattice>, xs: &[f64], refs: &[f64]) -> bool
    requires { length xs.now ≤ length refs.now }
    ensures { result ≡ keeps_of question s cell xs.now refs.now }
{
    match question {
        Question::Unasked => false,
        Question::NeedsRebuild => !rebuild::needs(s, cell, xs, refs),
        Question::Outdated => !rebuild::outdated(s, cell, xs, refs),
    }
}

// The list brought up to date: with a question whether it must be built anew, or without one.
pub fn update(
    question: Question,
    s: State,
    cell: Option<Lattice>,
    positions: &[f64],
    exclusions: &[u32],
    pairs: &mut [u32],
    references: &mut [f64],
    starts: &mut [u32],
    items: &mut [u32],
) -> Updated
    ensures { shown result pairs.new references.new starts.new items.new ≡ update_of question (given s cell positions.now exclusions.now pairs.old references.old starts.old items.old) }
{
    if is_unfit(positions.len(), references.len()) {
        return states::refused(s, Refusal::Lengths);
    }
    if is_kept(question, s, cell, positions, references) {
        return Updated {
            done: Ok(()),
            rebuilt: false,
            state: states::kept(s),
        };
    }
    build(
        s, cell, positions, exclusions, pairs, references, starts, items,
    )
}
