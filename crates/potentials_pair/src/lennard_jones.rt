// Lennard-Jones by the numbers of two species and a squared distance: what `nearBy` is made of, which is `ljNear` of `numbers_of` (proofs/Once.antt).
ghost use Rattle.std.specs.Prelude.{◌≡◌};
ghost use Rattle.potentials_pair.specs.Lj.{sigma_of, mix_of};
ghost use Rattle.potentials_pair.specs.Once.{numbers_of, energy_by, slope_by};

use crate::{Lj, Mixed, Mixing, Numbers};

fn sigma(rule: Mixing, a: f64, b: f64) -> f64
    ensures { result ≡ sigma_of rule a b }
{
    match rule {
        Mixing::HalfSum => 0.5 * (a + b),
        Mixing::Geometric => float::quick_root(a * b),
    }
}

// The rule is asked here and nowhere else.
pub fn mix(rule: Mixing, a: Mixed, b: Mixed) -> Mixed
    ensures { result ≡ mix_of rule a b }
{
    Mixed {
        epsilon: float::quick_root(a.epsilon * b.epsilon),
        sigma: sigma(rule, a.sigma, b.sigma),
    }
}

// All that the formulas need of two species, so that it is computed once for many pairs.
pub fn numbers_of(lj: Lj, m: Mixed) -> Numbers
    ensures { result ≡ numbers_of lj m }
{
    let depth = 4.0 * m.epsilon;
    let sc2 = m.sigma * m.sigma / (lj.cutoff * lj.cutoff);
    let sc6 = sc2 * sc2 * sc2;
    Numbers {
        depth: depth,
        square: m.sigma * m.sigma,
        shift: depth * (sc6 * sc6 - sc6),
    }
}

// The energy of a pair that is not skipped, r2 its squared distance.
pub fn energy(shift: bool, n: Numbers, r2: f64) -> f64
    ensures { result ≡ energy_by shift n r2 }
{
    let s2 = n.square * (1.0 / r2);
    let s6 = s2 * s2 * s2;
    let e = n.depth * (s6 * s6 - s6);
    if shift {
        return e - n.shift;
    }
    e
}

// How long its force is beside the difference.
pub fn slope(n: Numbers, r2: f64) -> f64
    ensures { result ≡ slope_by n r2 }
{
    let inv_r2 = 1.0 / r2;
    let s2 = n.square * inv_r2;
    let s6 = s2 * s2 * s2;
    let de_dr2 = n.depth * (-6.0 * (s6 * s6) + 3.0 * s6) * inv_r2;
    -2.0 * de_dr2
}
