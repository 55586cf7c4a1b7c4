// Range tests of numbers and of slices of numbers.
#![tactic(auto)]

pub mod rows;

ghost use Rattle.std.specs.Prelude.{◌≡◌};
ghost use Rattle.lists.specs.Lists.{every};
ghost use Rattle.ranges.specs.Ranged.{within, between};

pub fn is_within(limit: f64, x: f64) -> bool
    ensures { result ≡ within limit x }
{
    float::abs(x) <= limit
}

pub fn is_between(low: f64, high: f64, x: f64) -> bool
    ensures { result ≡ between low high x }
{
    (low <= x) & (x <= high)
}

// Every element is looked at, so that the loop has no branch and takes two in an instruction.
pub fn all_within(limit: f64, xs: &[f64]) -> bool
    ensures { result ≡ every (within limit) xs.now }
{
    let mut ok = true;
    for x in xs {
        ok = ok & is_within(limit, *x);
    }
    ok
}

pub fn all_between(low: f64, high: f64, xs: &[f64]) -> bool
    ensures { result ≡ every (between low high) xs.now }
{
    let mut ok = true;
    for x in xs {
        ok = ok & is_between(low, high, *x);
    }
    ok
}
