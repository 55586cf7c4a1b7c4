// Helpers on floats: total on every float, no refusal. One not-a-number.
ghost use Rattle.float.specs.Def.{abs_of, clamp_of, floor_of, max_of, min_of, rem_euclid_of, root_of, round_of, trunc_of};
ghost use Rattle.std.specs.Float.{binary64};
ghost use Rattle.std.specs.Float.Ieee.{of_bits, to_bits, to_signed, to_unsigned};
ghost use Rattle.std.specs.Prelude.{◌≡◌};

// The square root of x, rounded to nearest; of a number below 0 not a number.
#[unsafe(no_mangle)]
pub extern "C" fn tyn_root(x: f64) -> f64
    ensures { result ≡ root_of x }
{
    float::root(x)
}

// The largest whole number that is at most x.
#[unsafe(no_mangle)]
pub extern "C" fn tyn_floor(x: f64) -> f64
    ensures { result ≡ floor_of x }
{
    float::floor(x)
}

// x without its fraction.
#[unsafe(no_mangle)]
pub extern "C" fn tyn_trunc(x: f64) -> f64
    ensures { result ≡ trunc_of x }
{
    float::trunc(x)
}

// The nearest whole number, a half away from zero.
#[unsafe(no_mangle)]
pub extern "C" fn tyn_round(x: f64) -> f64
    ensures { result ≡ round_of x }
{
    float::round(x)
}

// Rust's rem_euclid: the rest of x by y that is not below 0.
#[unsafe(no_mangle)]
pub extern "C" fn tyn_rem_euclid(x: f64, y: f64) -> f64
    ensures { result ≡ rem_euclid_of x y }
{
    float::rem_euclid(x, y)
}

// The magnitude of x.
#[unsafe(no_mangle)]
pub extern "C" fn tyn_abs(x: f64) -> f64
    ensures { result ≡ abs_of x }
{
    float::abs(x)
}

// The smaller one, passing over a not-a-number; of two zeros the negative one.
#[unsafe(no_mangle)]
pub extern "C" fn tyn_min(x: f64, y: f64) -> f64
    ensures { result ≡ min_of x y }
{
    float::min(x, y)
}

// The larger one, passing over a not-a-number; of two zeros the positive one.
#[unsafe(no_mangle)]
pub extern "C" fn tyn_max(x: f64, y: f64) -> f64
    ensures { result ≡ max_of x y }
{
    float::max(x, y)
}

// lo where x < lo, else x; then hi where that is above hi.
#[unsafe(no_mangle)]
pub extern "C" fn tyn_clamp(x: f64, lo: f64, hi: f64) -> f64
    ensures { result ≡ clamp_of x lo hi }
{
    float::clamp(x, lo, hi)
}

// Rust's `as i64`: a not-a-number gives 0, too large the type's end.
#[unsafe(no_mangle)]
pub extern "C" fn tyn_to_i64(x: f64) -> i64
    ensures { result ≡ to_signed 63 x }
{
    float::to_i64(x)
}

// Rust's `as u64`: a not-a-number gives 0, too large the type's end.
#[unsafe(no_mangle)]
pub extern "C" fn tyn_to_u64(x: f64) -> u64
    ensures { result ≡ to_unsigned 64 x }
{
    float::to_u64(x)
}

// The float of 64 bits; any pattern of a not-a-number is the one.
#[unsafe(no_mangle)]
pub extern "C" fn tyn_of_bits(w: u64) -> f64
    ensures { result ≡ of_bits binary64 w }
{
    float::of_bits(w)
}

// The 64 bits of a float; a not-a-number is 7ff8000000000000.
#[unsafe(no_mangle)]
pub extern "C" fn tyn_to_bits(x: f64) -> u64
    ensures { result ≡ to_bits binary64 x }
{
    float::to_bits(x)
}
