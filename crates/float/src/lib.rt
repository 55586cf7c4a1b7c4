// What Rust's library gives on an `f64`, and IEEE 754's square root. Each contract is one equation with a definition of specs/Def.antt.
#![tactic(auto)]

ghost use Rattle.std.specs.Prelude.{◌≡◌, ◌+◌, ◌*◌, ◌/◌, ◌%◌, ◌^◌, ◌<◌, ◌≤◌, true, false, not, T, pos, if◌then◌else◌, from_bits, is_nan, to_bits};
ghost use Rattle.std.specs.Float.Ieee.Positive.{positive};
ghost use Rattle.std.specs.Float.{fin, inf, binary64};
ghost use Rattle.std.specs.Float.Ieee.{lt, to_unsigned, to_signed};
ghost use Rattle.float.specs.Def.{abs_of, negative, max_of, min_of, clamp_of, rem_euclid_of, trunc_of, floor_of, round_of, whole_root, root_scaled, root_of};
ghost use Rattle.float.specs.Estimate.{estimate_of};
ghost use Rattle.float.specs.Steps.{sign_of, half_up, Within, Digits, Evened, EvenOf, RootBits};

mod quick;
mod rest;
mod roots;

pub fn abs(x: f64) -> f64
    ensures { result ≡ abs_of x }
{
    if x <= 0.0 { 0.0 - x } else { x }
}

// One of two values, without a branch: where a loop calls it, the compiler makes a select of it.
fn pick(test: bool, a: f64, b: f64) -> f64
    ensures { result ≡ (if test then a else b) }
{
    if test { a } else { b }
}

pub fn max(x: f64, y: f64) -> f64
    ensures { result ≡ max_of x y }
{
    let larger = pick(x < y, y, x);
    let number = pick(x != x, y, larger);
    pick((x == 0.0) & (y == 0.0), x + y, number)
}

pub fn min(x: f64, y: f64) -> f64
    ensures { result ≡ min_of x y }
{
    let smaller = pick(x < y, x, y);
    let number = pick(y != y, x, smaller);
    pick((x == 0.0) & (y == 0.0), -(-x + -y), number)
}

pub fn clamp(x: f64, lo: f64, hi: f64) -> f64
    ensures { result ≡ clamp_of x lo hi }
{
    if x < lo {
        if lo > hi { hi } else { lo }
    } else {
        if x > hi { hi } else { x }
    }
}

pub fn rem_euclid(x: f64, y: f64) -> f64
    ensures { result ≡ rem_euclid_of x y }
{
    let r = rest::remainder(x, y);
    if r < 0.0 { r + abs(y) } else { r }
}

// The whole part of a number from 0 up and below 2^52. Between 2^52 and 2^53 the values are the
// whole numbers, so the sum is rounded to one of the two next to it.
fn whole_part(a: f64) -> f64
    requires { (negative a ≡ false) × (lt a (fin false 1 (pos 52)) ≡ true) }
    ensures { result ≡ trunc_of a }
{
    let t = (a + 4503599627370496.0) - 4503599627370496.0;
    if a < t { t - 1.0 } else { t }
}

// r with x's sign, and x itself where x is a zero.
fn with_sign(x: f64, r: f64) -> f64
    ensures { result ≡ sign_of x r }
{
    let signed = pick(x < 0.0, -r, r);
    pick(x == 0.0, x, signed)
}

// t, and t + 1 where d is a half or more.
fn half_up(t: f64, d: f64) -> f64
    ensures { result ≡ half_up t d }
{
    if d < 0.5 { t } else { t + 1.0 }
}

pub fn trunc(x: f64) -> f64
    ensures { result ≡ trunc_of x }
{
    let a = abs(x);
    if a < 4503599627370496.0 {
        with_sign(x, whole_part(a))
    } else {
        x
    }
}

pub fn floor(x: f64) -> f64
    ensures { result ≡ floor_of x }
{
    let a = abs(x);
    if a < 4503599627370496.0 {
        let t = whole_part(a);
        if x < 0.0 {
            if t < a { -(t + 1.0) } else { -t }
        } else {
            with_sign(x, t)
        }
    } else {
        x
    }
}

pub fn round(x: f64) -> f64
    ensures { result ≡ round_of x }
{
    let a = abs(x);
    if a < 4503599627370496.0 {
        let t = whole_part(a);
        with_sign(x, half_up(t, a - t))
    } else {
        x
    }
}

// `x as u64`: toward zero, a nan to 0, and to the type's end what is out of range.
pub fn to_u64(x: f64) -> u64
    ensures { result ≡ to_unsigned 64 x }
{
    if x > -1.0 {
        if x < 18446744073709551616.0 {
            std::num::truncating_f64_to_u64(x)
        } else {
            18446744073709551615
        }
    } else {
        0
    }
}

// `x as usize`.
pub fn to_usize(x: f64) -> usize
    ensures { result ≡ to_unsigned 64 x }
{
    to_u64(x) as usize
}

// `x as i64`.
pub fn to_i64(x: f64) -> i64
    ensures { result ≡ to_signed 63 x }
{
    if x >= -9223372036854775808.0 {
        if x < 9223372036854775808.0 {
            std::num::truncating_f64_to_i64(x)
        } else {
            9223372036854775807
        }
    } else if x != x {
        0
    } else {
        -9223372036854775808
    }
}

// One of two numbers, without a branch.
fn choose(test: bool, a: u64, b: u64) -> u64
    ensures { result ≡ (if test then a else b) }
{
    if test { a } else { b }
}

// r, raised by k where the square still is no more than w.
fn raised(r: u64, k: u64, w: u64) -> u64
    requires { (Within w r (2 * k)) × (k ≤ 8) × (w < 2 ^ 26) }
    ensures { Within w result k }
{
    let next = r + k;
    choose(w < next * next, r, next)
}

// The whole root of v's 26 leading digits. The table's entry knows the first ten of them; it is at
// most 8 too small.
fn leading_root(v: u64) -> u64
    requires { (2 ^ 52 ≤ v) × (v < 2 ^ 54) }
    ensures { Within (v / 2 ^ 28) result 1 }
{
    let w = v / 268435456;
    let e = roots::entry(w / 65536);
    let a = raised(e, 8, w);
    let b = raised(a, 4, w);
    let c = raised(b, 2, w);
    raised(c, 1, w)
}

// Twice the digits found of a root, at their places, and what is left.
#[derive(Drop)]
struct Found {
    s: u64,
    y: u64,
}

// One digit more, at the place b: it is 1 where the trial is no more than what is left.
fn digit(v: u64, s: u64, y: u64, b: u64) -> Found
    requires { (Digits v s y (2 * b)) × (b ≤ 2 ^ 40) }
    ensures { Digits v result.s result.y b }
{
    let left = y * 2;
    let trial = s + b;
    let none = left < trial;
    Found {
        s: choose(none, s, trial + b),
        y: left - choose(none, 0, trial),
    }
}

// The rest of the digits of the whole root of v * 2^54, from 13 on: one, then two a turn. `while`, since what a turn needs is the digits' place, b, and no count.
fn more_digits(v: u64, s0: u64, y0: u64) -> u64
    requires { Digits v s0 y0 (2 ^ 41) }
    ensures { result ≡ whole_root 54 (v * 2 ^ 54) }
{
    let first = digit(v, s0, y0, 1099511627776);
    let mut s = first.s;
    let mut y = first.y;
    let mut b: u64 = 549755813888;
    while 0 < b {
        let one = digit(v, s, y, b);
        let two = digit(v, one.s, one.y, b / 2);
        s = two.s;
        y = two.y;
        b = b / 4;
    }
    s / 2
}

// The whole root of v * 2^54.
fn root_digits(v: u64) -> u64
    requires { (2 ^ 52 ≤ v) × (v < 2 ^ 54) }
    ensures { result ≡ whole_root 54 (v * 2 ^ 54) }
{
    let r = leading_root(v);
    let over = v / 268435456 - r * r;
    more_digits(
        v,
        r * 4398046511104,
        over * 2199023255552 + v % 268435456 * 8192,
    )
}

// The root of v * 4^(h + 36) / 4^600. A root's 54th digit says which way to round, for no root is a
// middle between two values.
fn root_even(v: u64, h: u64) -> f64
    requires { (2 ^ 52 ≤ v) × (v < 2 ^ 54) × (h ≤ 1049) }
    ensures { result ≡ root_scaled (v * 4 ^ (h + 36)) }
{
    let r = root_digits(v);
    f64::from_bits((h + 484) * 4503599627370496 + (r + 1) / 2)
}

// A number v * 4^(h + 36) / 4^600 with 53 or 54 digits in v, so that its root's digits are those of v's.
#[derive(Drop)]
struct Even {
    v: u64,
    h: u64,
}

// m * 2^(q + 126) so: m's leading digit is brought to place 52 or 53, so that the exponent is even.
fn evened(m: u64, q: u64) -> Even
    requires { (0 < m) × (m < 2 ^ 53) × (q < 2046) }
    ensures { Evened (m * 2 ^ (q + 126)) result.v result.h }
{
    let z = (u64::leading_zeros(m) - 11) as u64;
    let p = q + 54 - z;
    Even {
        v: m << (z + p % 2),
        h: p / 2,
    }
}

// A finite number above zero so, by its bits: digits * 2^(field - 1075), and without the leading
// digit where the field is 0.
fn even_of(x: f64) -> Even
    requires { T (positive x) }
    ensures { EvenOf x result.v result.h }
{
    let bits = f64::to_bits(x);
    let field = bits / 4503599627370496 % 2048;
    let digits = bits % 4503599627370496;
    let lead = choose(field == 0, 0, 1);
    evened(digits + lead * 4503599627370496, field - lead)
}

// The root of a finite number above zero.
fn root_finite(x: f64) -> f64
    requires { T (positive x) }
    ensures { result ≡ root_of x }
{
    let e = even_of(x);
    root_even(e.v, e.h)
}

// IEEE 754's squareRoot.
pub fn root(x: f64) -> f64
    ensures { result ≡ root_of x }
{
    if x > 0.0 {
        if x < 1.0 / 0.0 { root_finite(x) } else { x }
    } else if x == 0.0 {
        x
    } else {
        0.0 / 0.0
    }
}

// The bits of the root of v * 4^(h + 36) / 4^600 from a guess at its digits, or 0.
fn quick_even(v: u64, h: u64, s: u64) -> u64
    requires bound { (2 ^ 52 ≤ v) × (v < 2 ^ 54) × (h ≤ 1049) }
    requires bound_2 { (2 ^ 52 ≤ s) × (s < 2 ^ 53) }
    ensures { RootBits (root_scaled (v * 4 ^ (h + 36))) result }
{
    let r = quick::confirmed(v, s);
    if 0 < r {
        (h + 484) * 4503599627370496 + r
    } else {
        0
    }
}

// A number with its leading digit so, by its bits, without a count of zeros. h + 484 is p / 2 again, which the bits of the root have.
fn normal_of(x: f64) -> Even
    requires { T (positive x) × (0 < to_bits binary64 x / 2 ^ 52 % 2048) }
    ensures { EvenOf x result.v result.h }
{
    let bits = f64::to_bits(x);
    let p = bits / 4503599627370496 % 2048 + 1021;
    let m = bits % 4503599627370496 + 4503599627370496;
    Even {
        v: m << (p % 2),
        h: p / 2 - 484,
    }
}

fn normal_bits(x: f64, guess: f64) -> u64
    requires x_normal { T (positive x) × (0 < to_bits binary64 x / 2 ^ 52 % 2048) }
    requires guess_number { T (not (is_nan guess)) }
    ensures { RootBits (root_of x) result }
{
    let e = normal_of(x);
    quick_even(e.v, e.h, quick::significand(guess))
}

// The bits of the root of x, or 0 where the guess is not confirmed or x is not above 2^-1022 and finite. One difference tells that x is finite and that
// the guess is a number.
fn quick_bits(x: f64, guess: f64) -> u64
    ensures { RootBits (root_of x) result }
{
    if (x > 2.2250738585072014e-308) & (x - guess < 1.0 / 0.0) {
        normal_bits(x, guess)
    } else {
        0
    }
}

// An estimate of the root, of which nothing is proved, for a loop before that of the roots: no branch and no call is in it, so that two go in one instruction.
pub fn root_estimate(x: f64) -> f64
    ensures { result ≡ estimate_of x }
{
    quick::estimate(pick(x != x, 0.0, x))
}

// The same root from any guess at its digits: a good one is confirmed in whole numbers, after a bad one the digits are found.
// Small, so that it goes into its loop.
pub fn root_from(x: f64, guess: f64) -> f64
    ensures { result ≡ root_of x }
{
    let bits = quick_bits(x, guess);
    if 0 < bits {
        f64::from_bits(bits)
    } else {
        root(x)
    }
}

// The same root for a loop that has no other for the estimates.
pub fn quick_root(x: f64) -> f64
    ensures { result ≡ root_of x }
{
    root_from(x, root_estimate(x))
}

pub fn infinity() -> f64
    ensures { result ≡ inf false }
{
    1.0 / 0.0
}

// The float of a bit pattern. Every pattern of a not-a-number gives the one.
pub fn of_bits(w: u64) -> f64
    ensures { result ≡ from_bits binary64 w }
{
    if w % 9223372036854775808 > 9218868437227405312 {
        0.0 / 0.0
    } else {
        f64::from_bits(w)
    }
}

// The bit pattern of a float, 7ff8000000000000 for the one not-a-number.
pub fn to_bits(x: f64) -> u64
    ensures { result ≡ to_bits binary64 x }
{
    if x != x {
        9221120237041090560
    } else {
        f64::to_bits(x)
    }
}
