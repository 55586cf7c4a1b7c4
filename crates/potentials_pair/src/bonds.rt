// A harmonic bond over a force constant, a length at rest and its length: the two floats of `bondNear`.
ghost use Rattle.std.specs.Prelude.{◌≡◌};
ghost use Rattle.potentials_pair.specs.Bond.{bond_energy, bond_slope};

pub fn energy(k: f64, r0: f64, r: f64) -> f64
    ensures { result ≡ bond_energy k r0 r }
{
    let dr = r - r0;
    0.5 * k * dr * dr
}

// How long the force is beside the difference.
pub fn slope(k: f64, r0: f64, r: f64) -> f64
    ensures { result ≡ bond_slope k r0 r }
{
    let dr = r - r0;
    -k * dr / r
}
