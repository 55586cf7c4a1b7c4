// The first word of 57, 67 to 69, and of 58, 59: which further parts stand in the line.
ghost use Rattle.std.specs.Prelude.{ℕ, ◌≡◌, ◌+◌, ◌*◌, ◌<◌, ◌%◌, List, [], ◌∷◌, ◌++◌, IfSome, IsSome, length, true, false, from_bits};
ghost use Rattle.std.specs.Float.Ieee.{binary64};
ghost use Rattle.std.specs.List.{All};
ghost use Rattle.replay_words.specs.Told.{bit, stored};

use replay_words::{Case, Store};

// The commands without a mask have none.
#[derive(Clone, Copy, Default)]
pub struct Parts {
    pub angles: bool, // 1: the term of angles after bonds', and its two tables after theirs
    pub cell: bool, // 2: a cell at the end of State
    pub own: bool, // 4: the two own tables before ids and rows
    pub rule: bool, // 8: the mixing rule at the end of Lennard-Jones' numbers
}

// A mask with another bit is no case.
pub fn take_mask(case: &mut Case) -> Option<Parts>
    ensures { IfSome result (λ p. case.old ≡ (bit p.angles + 2 * bit p.cell + 4 * bit p.own + 8 * bit p.rule) ∷ case.new) }
{
    let mask = case.take_word()?;
    if 16 <= mask {
        return None;
    }
    Some(Parts {
        angles: mask % 2 == 1,
        cell: mask / 2 % 2 == 1,
        own: mask / 4 % 2 == 1,
        rule: mask / 8 == 1,
    })
}

// A table, and an empty one where it does not stand in the line.
pub fn take_u32s_if(there: bool, case: &mut Case, into: &mut Store<u32>) -> Option<()>
    ensures stands { there ≡ true → IfSome result (λ _. (t : List ℕ) × (case.old ≡ length t ∷ (t ++ case.new)) × All (λ w. w < 4294967296) t × (into.new ≡ stored (λ w. w % 4294967296) t)) }
    ensures empty { there ≡ false → IsSome result × (case.new ≡ case.old) × (into.new ≡ []) }
{
    if there {
        case.take_u32s(into)
    } else {
        into.fill(&[]);
        Some(())
    }
}

pub fn take_floats_if(there: bool, case: &mut Case, into: &mut Store<f64>) -> Option<()>
    ensures stands { there ≡ true → IfSome result (λ _. (t : List ℕ) × (case.old ≡ length t ∷ (t ++ case.new)) × (into.new ≡ stored (λ w. from_bits binary64 w) t)) }
    ensures empty { there ≡ false → IsSome result × (case.new ≡ case.old) × (into.new ≡ []) }
{
    if there {
        case.take_floats(into)
    } else {
        into.fill(&[]);
        Some(())
    }
}
