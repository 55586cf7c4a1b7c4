// Leaves of the tests: what is asked of a list's settings, and in which order refusals are given.
ghost use Rattle.std.specs.Prelude.{◌≡◌};
ghost use Rattle.neighbor_asked.specs.Asked.{settings_ok, in_order, first_refusal};

use answer::Refusal;
use cell::ranged;

pub fn settings_ok(cutoff: f64, skin: f64) -> bool
    ensures { result ≡ settings_ok cutoff skin }
{
    ranges::is_between(0.0, ranged::ENTRY, cutoff) & ranges::is_within(ranged::ENTRY, skin)
}

// The first refusal of 1, 2, 6, 3.
pub fn in_order(
    lengths: bool,
    many: bool,
    atoms: usize,
    claims: bool,
    range: bool,
) -> Result<(), Refusal>
    ensures { result ≡ in_order lengths many atoms claims range }
{
    if lengths {
        return Err(Refusal::Lengths);
    }
    if many {
        return Err(Refusal::TooMany { atoms: atoms });
    }
    if claims {
        return Err(Refusal::Claims);
    }
    if range {
        return Err(Refusal::Range);
    }
    Ok(())
}

// A bond's 4, then an angle's; 5 of the exclusions, then of the species.
pub fn names_in_turn(
    bonds: Result<(), Refusal>,
    angles: Result<(), Refusal>,
    table: Result<(), Refusal>,
    species: Result<(), Refusal>,
) -> Result<(), Refusal>
    ensures { result ≡ first_refusal bonds (first_refusal angles (first_refusal table species)) }
{
    bonds?;
    angles?;
    table?;
    species
}
