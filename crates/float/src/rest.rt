// The remainder of two floats in whole numbers, without a call of the C library: x and y as multiples of the smallest value, the rest of one by the other, and
// that as a float again.
ghost use Rattle.std.specs.Prelude.{◌≡◌, ◌-◌, ◌*◌, ◌%◌, ◌^◌, ◌<◌, ◌≤◌, T};
ghost use Rattle.std.specs.Float.Ieee.Positive.{positive};
ghost use Rattle.std.specs.Float.{binary64};
ghost use Rattle.std.specs.Float.Ieee.{rem};
ghost use Rattle.float.specs.Remainder.{IsPacked, IsUnits};

use crate::{abs, choose};

// digits * 2^power of the smallest values.
#[derive(Clone, Copy)]
pub(crate) struct Scaled {
    digits: u64,
    power: u64,
}

fn units(x: f64) -> Scaled
    requires { T (positive x) }
    ensures { IsUnits x result.digits result.power }
{
    let bits = f64::to_bits(x);
    let field = bits / 4503599627370496 % 2048;
    let digits = bits % 4503599627370496;
    let lead = choose(field == 0, 0, 1);
    Scaled {
        digits: digits + lead * 4503599627370496,
        power: field - lead,
    }
}

// What is left of a * 2^steps by b.
fn rest_of(a: u64, b: u64, steps: u64) -> u64
    requires { (0 < b) × (b < 2 ^ 53) }
    ensures { result ≡ (a * 2 ^ steps) % b }
{
    let mut r = a % b;
    for _n in 0..steps {
        r = 2 * r % b;
    }
    r
}

// The float of m * 2^p smallest values. `while`, since two tests end it, and neither alone says after how many turns.
fn packed(digits: u64, power: u64) -> f64
    requires { (digits < 2 ^ 53) × (power < 2046) }
    ensures { IsPacked result digits power }
{
    let mut m = digits;
    let mut p = power;
    while p > 0 && m < 4503599627370496 {
        m = 2 * m;
        p -= 1;
    }
    f64::from_bits(p * 4503599627370496 + m)
}

// The remainder of two finite floats above zero.
fn divided(a: f64, b: f64) -> f64
    requires { T (positive a) × T (positive b) }
    ensures { result ≡ rem binary64 a b }
{
    let u = units(a);
    let v = units(b);
    if v.power <= u.power {
        packed(rest_of(u.digits, v.digits, u.power - v.power), v.power)
    } else {
        a
    }
}

// Rust's `%`, without a call: exact, with x's sign.
pub(crate) fn remainder(x: f64, y: f64) -> f64
    ensures { result ≡ rem binary64 x y }
{
    let a = abs(x);
    let b = abs(y);
    if (a < 1.0 / 0.0) & (0.0 < b) {
        if (0.0 < a) & (b < 1.0 / 0.0) {
            let r = divided(a, b);
            if x < 0.0 { -r } else { r }
        } else {
            x
        }
    } else {
        0.0 / 0.0
    }
}
