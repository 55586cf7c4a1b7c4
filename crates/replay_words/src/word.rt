// What a word of a case can stand for.
ghost use Rattle.std.specs.Prelude.{◌≡◌, ℕ, ◌%◌, ◌==◌, to_bits, from_bits, if◌then◌else◌};
ghost use Rattle.std.specs.Float.Ieee.{binary64};
ghost use Rattle.std.specs.Int.{w64, cast_unsigned, cast_signed};

pub trait Word: Copy + Default {
    // The value that a word tells, and the word that tells a value.
    ghost value_of: { ℕ → Self };

    ghost word_of: { Self → ℕ };

    fn of_word(w: u64) -> Self
        ensures { result ≡ value_of w };

    fn to_word(self) -> u64
        ensures { result ≡ word_of self };
}

impl Word for u64 {
    ghost value_of = { λ w. w };

    ghost word_of = { λ x. x };

    fn of_word(w: u64) -> Self {
        w
    }

    fn to_word(self) -> u64 {
        self
    }
}

impl Word for usize {
    ghost value_of = { λ w. w };

    ghost word_of = { λ x. x };

    fn of_word(w: u64) -> Self {
        w as usize
    }

    fn to_word(self) -> u64 {
        self as u64
    }
}

// A u32 is the word's lower half.
impl Word for u32 {
    ghost value_of = { λ w. w % 4294967296 };

    ghost word_of = { λ x. x };

    fn of_word(w: u64) -> Self {
        (w % 4294967296) as u32
    }

    fn to_word(self) -> u64 {
        u64::from(self)
    }
}

// A byte is the word's lowest.
impl Word for u8 {
    ghost value_of = { λ w. w % 256 };

    ghost word_of = { λ x. x };

    fn of_word(w: u64) -> Self {
        (w % 256) as u8
    }

    fn to_word(self) -> u64 {
        u64::from(self)
    }
}

// A float is its bits.
impl Word for f64 {
    ghost value_of = { λ w. from_bits binary64 w };

    ghost word_of = { λ x. to_bits binary64 x };

    fn of_word(w: u64) -> Self {
        float::of_bits(w)
    }

    fn to_word(self) -> u64 {
        float::to_bits(self)
    }
}

// A signed number is its two's complement.
impl Word for i64 {
    ghost value_of = { λ w. cast_signed w64 w };

    ghost word_of = { λ x. cast_unsigned w64 x };

    fn of_word(w: u64) -> Self {
        w.cast_signed()
    }

    fn to_word(self) -> u64 {
        self.cast_unsigned()
    }
}

// A bool is 0 or 1.
impl Word for bool {
    ghost value_of = { λ w. w == 1 };

    ghost word_of = { λ b. if b then 1 else 0 };

    fn of_word(w: u64) -> Self {
        w == 1
    }

    fn to_word(self) -> u64 {
        u64::from(self)
    }
}
