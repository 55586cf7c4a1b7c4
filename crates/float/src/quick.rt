// The square root by certificate: an estimate in floats, of which nothing is proved, then a test in whole numbers that tells whether it or a number next to it is the rounded root.
// What is not confirmed is found digit by digit, so a poor estimate costs time and nothing else.
ghost use Rattle.std.specs.Prelude.{◌≡◌, ◌^◌, ◌<◌, ◌≤◌, not, T, is_nan};
ghost use Rattle.float.specs.Estimate.{newton_of};
ghost use Rattle.float.specs.Steps.{Confirmed};

use crate::choose;

// An estimate of the root of x: three of Newton's steps for 1 / root from its bits, and one for the root.
pub(crate) fn estimate(x: f64) -> f64
    requires { T (not (is_nan x)) }
    ensures { result ≡ newton_of x }
{
    let half = 0.5 * x;
    let a = f64::from_bits(6910469410427058089 - f64::to_bits(x) / 2 % 4611686018427387904);
    let b = a * (1.5 - half * a * a);
    let c = b * (1.5 - half * b * b);
    let d = c * (1.5 - half * c * c);
    let s = x * d;
    s + 0.5 * d * (x - s * s)
}

// The significand of a guess, with its leading digit.
pub(crate) fn significand(guess: f64) -> u64
    requires { T (not (is_nan guess)) }
    ensures { (2 ^ 52 ≤ result) × (result < 2 ^ 53) }
{
    f64::to_bits(guess) % 4503599627370496 + 4503599627370496
}

// The whole number nearest to the root of v * 2^52, if it is s or next to s, and 0 if not. With s = a * 2^26 + b the square of s is p * 2^52 + q. `left` is
// v * 2^52 - s^2 + 2^57 where v is within 8 of p.
pub(crate) fn confirmed(v: u64, s: u64) -> u64
    requires bound { (2 ^ 52 ≤ v) × (v < 2 ^ 54) }
    requires bound_2 { (2 ^ 52 ≤ s) × (s < 2 ^ 53) }
    ensures { Confirmed v result }
{
    let a = s / 67108864;
    let b = s % 67108864;
    let ab = a * b;
    let p = a * a + ab / 33554432;
    let q = ab % 33554432 * 134217728 + b * b;
    let d = v + 72057594037927944 - p;
    let left = d % 16 * 4503599627370496 + 108086391056891904 - q;
    let up = choose(144115188075855872 + s < left, 1, 0);
    let down = choose(left + s <= 144115188075855872, 1, 0);
    let near = (d / 16 == 4503599627370496)
        & (left <= 144115188075855874 + 3 * s)
        & (144115188075855874 < left + 3 * s);
    choose(near, s + up - down, 0)
}
