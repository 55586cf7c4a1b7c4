// A case's arguments taken out of its words, one after the other; a table into a store that is lent for it.
ghost use Rattle.std.specs.Prelude.{ℕ, ◌≡◌, ◌<◌, ◌%◌, List, [], ◌∷◌, ◌++◌, IfSome, IfNone, IsSome, ◌↔◌, length, from_bits, if◌then◌else◌};
ghost use Rattle.std.specs.Float.Ieee.{binary64};
ghost use Rattle.std.specs.List.{All};
ghost use Rattle.replay_words.specs.Told.{stored};

use crate::{Store, Word};
use std::marker::Model;

// The words that are not taken yet. None is answered where a word is missing or is no such argument: then the line is no case.
#[derive(Drop)]
pub struct Case<'a> {
    rest: &'a [u64],
}

impl<'a> Model for Case<'a> {
    ghost Value = { List ℕ };

    ghost view = { λ c. c.rest.now };
}

impl<'a> Case<'a> {
    pub fn new(words: &'a [u64]) -> Self
        ensures { result ≡ words.now }
    {
        Case { rest: words }
    }

    pub fn take_word(&mut self) -> Option<u64>
        ensures taken { IfSome result (λ w. self.old ≡ w ∷ self.new) }
        ensures missing { IfNone result (self.old ≡ []) }
    {
        let (first, rest) = self.rest.split_first()?;
        self.rest = rest;
        Some(*first)
    }

    // A float is its bits.
    pub fn take_float(&mut self) -> Option<f64>
        ensures taken { IfSome result (λ x. (w : ℕ) × (self.old ≡ w ∷ self.new) × (x ≡ from_bits binary64 w)) }
        ensures missing { IfNone result (self.old ≡ []) }
    {
        Some(f64::of_word(self.take_word()?))
    }

    // A bool is 0 or 1.
    pub fn take_bool(&mut self) -> Option<bool>
        ensures { IfSome result (λ b. self.old ≡ (if b then 1 else 0) ∷ self.new) }
    {
        match self.take_word()? {
            0 => Some(false),
            1 => Some(true),
            _ => None,
        }
    }

    pub fn take_u32(&mut self) -> Option<u32>
        ensures { IfSome result (λ x. self.old ≡ x ∷ self.new) }
    {
        u32::try_from(self.take_word()?).ok()
    }

    // The words of a table: its length, then as many words as it says.
    fn take_table(&mut self) -> Option<&'a [u64]>
        ensures { IfSome result (λ t. self.old ≡ length t.now ∷ (t.now ++ self.new)) }
    {
        let count = self.take_word()? as usize;
        let (table, rest) = self.rest.split_at_checked(count)?;
        self.rest = rest;
        Some(table)
    }

    // The same where each is below a limit.
    fn take_below(&mut self, limit: u64) -> Option<&'a [u64]>
        ensures { IfSome result (λ t. (self.old ≡ length t.now ∷ (t.now ++ self.new)) × All (λ w. w < limit) t.now) }
    {
        let table = self.take_table()?;
        if table.iter().all(|w| *w < limit) {
            Some(table)
        } else {
            None
        }
    }

    pub fn take_floats(&mut self, into: &mut Store<f64>) -> Option<()>
        ensures taken { IfSome result (λ _. (t : List ℕ) × (self.old ≡ length t ∷ (t ++ self.new)) × (into.new ≡ stored (λ w. from_bits binary64 w) t)) }
        ensures missing { IfNone result (into.new ≡ into.old) }
    {
        into.fill(self.take_table()?);
        Some(())
    }

    pub fn take_words(&mut self, into: &mut Store<u64>) -> Option<()>
        ensures taken { IfSome result (λ _. (t : List ℕ) × (self.old ≡ length t ∷ (t ++ self.new)) × (into.new ≡ stored (λ w. w) t)) }
        ensures missing { IfNone result (into.new ≡ into.old) }
    {
        into.fill(self.take_table()?);
        Some(())
    }

    pub fn take_u32s(&mut self, into: &mut Store<u32>) -> Option<()>
        ensures taken { IfSome result (λ _. (t : List ℕ) × (self.old ≡ length t ∷ (t ++ self.new)) × All (λ w. w < 4294967296) t × (into.new ≡ stored (λ w. w % 4294967296) t)) }
        ensures missing { IfNone result (into.new ≡ into.old) }
    {
        into.fill(self.take_below(4294967296)?);
        Some(())
    }

    // A byte a word.
    pub fn take_bytes(&mut self, into: &mut Store<u8>) -> Option<()>
        ensures taken { IfSome result (λ _. (t : List ℕ) × (self.old ≡ length t ∷ (t ++ self.new)) × All (λ w. w < 256) t × (into.new ≡ stored (λ w. w % 256) t)) }
        ensures missing { IfNone result (into.new ≡ into.old) }
    {
        into.fill(self.take_below(256)?);
        Some(())
    }

    // A case has no word over.
    pub fn end(self) -> Option<()>
        ensures { IsSome result ↔ (self.entry ≡ []) }
    {
        if self.rest.is_empty() { Some(()) } else { None }
    }
}
