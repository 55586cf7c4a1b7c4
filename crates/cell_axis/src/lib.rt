// One axis of the minimum image in a box, and one of the general way. The contracts are the source's formulas, x - len * round(x / len)
// and x - round(x), on every float. `near` has no division, for an |x| below the length; `far` has no branch, for an |x| below 2^51 lengths.
#![tactic(auto)]

ghost use Rattle.std.specs.Prelude.{◌≡◌};
ghost use Rattle.float.specs.Def.{abs_of};
ghost use Rattle.cell_axis.specs.Image.{nearest_of, axis_of, fraction_of, toward_of, shift_of, steps_of, in_reach, NearSays, FarSays};

// The formula as it stands.
fn nearest(len: f64, x: f64) -> f64
    ensures { result ≡ nearest_of len x }
{
    x - len * float::round(x / len)
}

pub fn axis(periodic: bool, len: f64, x: f64) -> f64
    ensures { result ≡ axis_of periodic len x }
{
    if periodic { nearest(len, x) } else { x }
}

pub fn fraction(x: f64) -> f64
    ensures { result ≡ fraction_of x }
{
    x - float::round(x)
}

// l with the sign that brings x toward 0.
// (`<=` and not `<`, since `abs` asks the same: one comparison after inlining.)
fn toward(x: f64, l: f64) -> f64
    ensures { result ≡ toward_of x l }
{
    if x <= 0.0 { l } else { -l }
}

// What is added to x: 0 where |x| is below half of len, and len toward 0 from there on.
// By |x + x|, which is |x| + |x| (proofs/Twice.antt): a magnitude that is only compared is one instruction, one that is added a branch on the sign.
fn shift(len: f64, x: f64) -> f64
    ensures { result ≡ shift_of (abs_of x) len x }
{
    if float::abs(x + x) < len {
        0.0
    } else {
        toward(x, len)
    }
}

// The short way: the formula where |x| is below len, and len no infinity.
pub fn near(len: f64, x: f64) -> f64
    ensures { NearSays (abs_of x) len x result }
{
    x + shift(len, x)
}

// q to the nearest whole number, a half up, for a q from 0 up and below 2^51: the sum with 2^52 is rounded to a whole number, a half to the even one.
fn steps(q: f64) -> f64
    ensures { result ≡ steps_of q }
{
    let t = (q + 4503599627370496.0) - 4503599627370496.0;
    if q < t + 0.5 { t } else { t + 1.0 }
}

// Whether the long way is the formula: below 2^51 lengths, of a length above 0.
pub fn in_reach(a: f64, len: f64) -> bool
    ensures { result ≡ in_reach a len }
{
    (0.0 < len) & (a / len < 2251799813685248.0)
}

// The long way: the formula where a is |x| and `in_reach`.
pub fn far(a: f64, len: f64, x: f64) -> f64
    ensures { FarSays a len x result }
{
    x + toward(x, len * steps(a / len))
}
