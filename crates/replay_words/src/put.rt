// An answer put together as words, one after the other. What finds no room is not written.
ghost use Rattle.std.specs.Prelude.{ℕ, ◌≡◌, ◌≤◌, List, [], ◌∷◌, ◌++◌, length, take, map, Ok, Err, Some, None, MatchResult};
ghost use Rattle.answer.specs.Seen.{number_of, place_of};
ghost use Rattle.replay_words.specs.Told.{told};

use crate::Word;
use answer::Refusal;
use std::marker::Model;

#[derive(Drop)]
pub struct Answer {
    words: [u64; 8208],
    count: usize,
}

impl Model for Answer {
    ghost Value = { List ℕ };

    ghost view = { λ a. take a.count a.words };

    ghost invariant = { λ a. a.count ≤ 8208 };
}

impl Answer {
    pub fn new() -> Self
        ensures { result ≡ [] }
    {
        Answer {
            words: [0; 8208],
            count: 0,
        }
    }

    pub fn clear(&mut self)
        ensures { self.new ≡ [] }
    {
        self.count = 0;
    }

    pub fn words(&self) -> &[u64]
        ensures value { result.now ≡ self.now }
        ensures fits { length result.now ≤ 8208 }
    {
        &self.words[..self.count]
    }

    fn put_word(&mut self, w: u64)
        ensures { self.new ≡ told self.old (w ∷ []) }
    {
        if self.count < 8208 {
            self.words[self.count] = w;
            self.count += 1;
        }
    }

    pub fn put<T: Word>(&mut self, x: T)
        ensures { self.new ≡ told self.old (T.word_of x ∷ []) }
    {
        self.put_word(x.to_word());
    }

    // Some values, one after the other.
    pub fn put_all<T: Word>(&mut self, xs: &[T])
        ensures { self.new ≡ told self.old (map T.word_of xs.now) }
    {
        for x in xs {
            self.put(*x);
        }
    }

    // A table is its length and its elements.
    pub fn put_table<T: Word>(&mut self, xs: &[T])
        ensures { self.new ≡ told self.old (length xs.now ∷ map T.word_of xs.now) }
    {
        self.put(xs.len());
        self.put_all(xs);
    }

    // 0 and 0: no refusal.
    pub fn put_done(&mut self)
        ensures { self.new ≡ told self.old (0 ∷ 0 ∷ []) }
    {
        self.put_all(&[0u64, 0]);
    }

    // A refusal's number and place.
    pub fn put_refusal(&mut self, why: Refusal)
        ensures { self.new ≡ told self.old (number_of why ∷ place_of why ∷ []) }
    {
        self.put_all(&[why.number(), why.place()]);
    }

    // What an answer begins with: 0 and 0, or the refusal. The value comes back where there is one.
    pub fn put_head<T>(&mut self, answer: Result<T, Refusal>) -> Option<T>
        ensures { MatchResult answer (λ v. (result ≡ Some v) × (self.new ≡ told self.old (0 ∷ 0 ∷ []))) (λ e. (result ≡ None) × (self.new ≡ told self.old (number_of e ∷ place_of e ∷ []))) }
    {
        match answer {
            Ok(value) => {
                self.put_done();
                Some(value)
            }
            Err(why) => {
                self.put_refusal(why);
                None
            }
        }
    }

    // The head, and the value where there is one.
    pub fn put_answer<T: Word>(&mut self, answer: Result<T, Refusal>)
        ensures { MatchResult answer (λ v. self.new ≡ told self.old (0 ∷ 0 ∷ T.word_of v ∷ [])) (λ e. self.new ≡ told self.old (number_of e ∷ place_of e ∷ [])) }
    {
        if let Some(value) = self.put_head(answer) {
            self.put(value);
        }
    }
}
