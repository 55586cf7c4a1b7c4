// One axis of the minimum image in a box where only its square is asked: no test of a sign, and none of the half of a length. In a loop over places that
// lie side by side the compiler makes each step one instruction for two of them. And what one place's differences with many have in common, by their bounds,
// and sums of three products with what lies between bounds.
#![tactic(auto)]

ghost use Rattle.std.specs.Prelude.{◌≡◌, cond};
ghost use Rattle.std.specs.Float.Ieee.{lt};
ghost use Rattle.float.specs.Def.{abs_of};
ghost use Rattle.float.specs.Arith.{◌⊖◌};
ghost use Rattle.cell_square.specs.Square.{SideSays, in_half, steady_of, step_of, SteadySays, SharedSteady, calm_of, CalmSays, nearer_of, gap_of, low_times, high_times, low_sum, high_sum};

// |x| as the larger of x and 0 - x: in a loop one instruction after the difference, where `float::abs` has five.
fn magnitude(x: f64) -> f64
    ensures { result ≡ abs_of x }
{
    let turned = 0.0 - x;
    if turned < x { x } else { turned }
}

// Whether two places are less than a length apart.
pub fn in_length(len: f64, a: f64, b: f64) -> bool
    ensures { result ≡ lt (abs_of (a ⊖ b)) len }
{
    magnitude(a - b) < len
}

// The smaller of their distance and the length less it: its square is that of the image's, whichever place is taken from the other.
pub fn side(len: f64, a: f64, b: f64) -> f64
    ensures { SideSays len a b result }
{
    let t = magnitude(a - b);
    let rest = len - t;
    if rest < t { rest } else { t }
}

fn in_half(len: f64, x: f64) -> bool
    ensures { result ≡ in_half len x }
{
    magnitude(x + x) < len
}

// Whether one step takes all that lies from low up to high within a half of a length.
pub fn is_steady(len: f64, low: f64, high: f64) -> bool
    ensures { result ≡ steady_of len low high }
{
    let low_in = in_half(len, low);
    let high_in = in_half(len, high);
    (0.0 < len)
        & (magnitude(low) < len)
        & (magnitude(high) < len)
        & ((low_in & high_in) | (!low_in & (0.0 < low)) | (!high_in & (high < 0.0)))
}

// Whether one step takes each difference of a and the places from lo up to hi to a number whose square is its image's: by the two ends, since rounding
// keeps the order.
pub fn steady(len: f64, a: f64, lo: f64, hi: f64) -> bool
    ensures { SteadySays len a lo hi result }
{
    is_steady(len, a - hi, a - lo)
}

// .. of all places from c up to d.
pub fn shared_steady(len: f64, c: f64, d: f64, lo: f64, hi: f64) -> bool
    ensures { SharedSteady len c d lo hi result }
{
    is_steady(len, c - hi, d - lo)
}

fn pick(test: bool, a: f64, b: f64) -> f64
    ensures { result ≡ cond test a b }
{
    if test { a } else { b }
}

// That step: nothing, a length down, a length up.
pub fn step_by(len: f64, low: f64, high: f64) -> f64
    ensures { result ≡ step_of len low high }
{
    let low_in = in_half(len, low);
    let high_in = in_half(len, high);
    pick(
        low_in & high_in,
        0.0,
        pick(!low_in & (0.0 < low), -len, len),
    )
}

pub fn step(len: f64, a: f64, lo: f64, hi: f64) -> f64
    ensures { result ≡ step_of len (a ⊖ hi) (a ⊖ lo) }
{
    step_by(len, a - hi, a - lo)
}

// Whether it is nothing, which is the common case and asks less.
pub fn is_calm(len: f64, low: f64, high: f64) -> bool
    ensures { result ≡ calm_of len low high }
{
    (0.0 < len) & in_half(len, low) & in_half(len, high)
}

pub fn calm(len: f64, a: f64, lo: f64, hi: f64) -> bool
    ensures { CalmSays len a lo hi result }
{
    is_calm(len, a - hi, a - lo)
}

// How far from 0 all that lies from low up to high is, but for the sign.
pub fn nearer(low: f64, high: f64) -> f64
    ensures { result ≡ nearer_of low high }
{
    pick(0.0 < low, low, pick(high < 0.0, high, 0.0))
}

// .. and of these differences.
pub fn gap(step: f64, a: f64, lo: f64, hi: f64) -> f64
    ensures { result ≡ gap_of step (a ⊖ hi) (a ⊖ lo) }
{
    nearer((a - hi) + step, (a - lo) + step)
}

// c times what lies from low up to high, the least and the greatest: the two ends by one comparison, so that both of them are told.
fn low_times(c: f64, low: f64, high: f64) -> f64
    ensures { result ≡ low_times c low high }
{
    let p = c * low;
    let q = c * high;
    pick(q < p, q, p)
}

fn high_times(c: f64, low: f64, high: f64) -> f64
    ensures { result ≡ high_times c low high }
{
    let p = c * low;
    let q = c * high;
    pick(q < p, p, q)
}

// a x + b y + c z, the least and the greatest, of x from xl up to xh, y from yl up to yh, z from zl up to zh: rounding keeps the order of products too.
pub fn low_sum(a: f64, b: f64, c: f64, xl: f64, xh: f64, yl: f64, yh: f64, zl: f64, zh: f64) -> f64
    ensures { result ≡ low_sum a b c xl xh yl yh zl zh }
{
    low_times(a, xl, xh) + low_times(b, yl, yh) + low_times(c, zl, zh)
}

pub fn high_sum(a: f64, b: f64, c: f64, xl: f64, xh: f64, yl: f64, yh: f64, zl: f64, zh: f64) -> f64
    ensures { result ≡ high_sum a b c xl xh yl yh zl zh }
{
    high_times(a, xl, xh) + high_times(b, yl, yh) + high_times(c, zl, zh)
}
