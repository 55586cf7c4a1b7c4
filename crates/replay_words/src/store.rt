// A table, room or store of a case in memory of its own: what a call writes is a part of no other.
ghost use Rattle.std.specs.Prelude.{◌≡◌, ◌≤◌, List, [], ◌∷◌, ◌++◌, length, take, map, replicate};
ghost use Rattle.replay_words.specs.Told.{kept, stored};

use crate::Word;
use std::marker::Model;

#[derive(Drop)]
pub struct Store<T> {
    items: [T; 8192],
    count: usize,
}

impl<T> Model for Store<T> {
    ghost Value = { List T };

    ghost view = { λ s. take s.count s.items };

    ghost invariant = { λ s. s.count ≤ 8192 };
}

impl<T: Word> Store<T> {
    // The first 8,192 words as values: a case has no more.
    pub fn new(words: &[u64]) -> Self
        ensures { result ≡ stored T.value_of words.now }
    {
        let mut store = Store {
            items: [T::default(); 8192],
            count: 0,
        };
        store.fill(words);
        store
    }

    // The same in place of what it had, which costs as much as there are words.
    pub fn fill(&mut self, words: &[u64])
        ensures { self.new ≡ stored T.value_of words.now }
    {
        self.count = 0;
        self.keep_all(words);
    }

    fn keep_all(&mut self, words: &[u64])
        ensures { self.new ≡ kept self.old (map T.value_of words.now) }
    {
        for w in words {
            self.keep(T::of_word(*w));
        }
    }

    fn keep(&mut self, x: T)
        ensures { self.new ≡ kept self.old (x ∷ []) }
    {
        if self.count < 8192 {
            self.items[self.count] = x;
            self.count += 1;
        }
    }

    pub fn items(&self) -> &[T]
        ensures { result.now ≡ self.now }
    {
        &self.items[..self.count]
    }

    // The same to be written.
    pub fn room(&mut self) -> &mut [T]
        ensures { result.now ≡ self.old }
    {
        let items = &mut self.items;
        &mut items[..self.count]
    }
}

// An array of one value. Where a long one is made in the function that lends it, the proof counts its elements one by one.
pub fn filled<T: Copy, const N: usize>(x: T) -> [T; N]
    ensures { result ≡ replicate N x }
{
    [x; N]
}
