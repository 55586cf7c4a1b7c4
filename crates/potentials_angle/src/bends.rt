// What one angle adds, over its arms and its numbers, and one `apply`. Total, and no public call.
ghost use Rattle.std.specs.Prelude.{◌≡◌};
ghost use Rattle.potentials_pair.specs.Pull.{held};
ghost use Rattle.potentials_angle.specs.Bend.{side_of, is_short_arm, bend_near, bend_of, forces_with_bend, sum_with_bend, bent};

use crate::{Angle, Bend, Corner};
use cell::{Vec3, vectors};
use virial::Sum;

// The force on the end of the arm `own`, which is `len` long; `both` is the product of the two lengths.
fn side(own: Vec3, other: Vec3, len: f64, both: f64, c: f64, coef: f64) -> Vec3
    ensures { result ≡ side_of own other len both c coef }
{
    vectors::scale(
        vectors::sub(
            vectors::scale(other, 1.0 / both),
            vectors::scale(own, c / (len * len)),
        ),
        coef,
    )
}

fn is_short_arm(lij: f64, lkj: f64) -> bool
    ensures { result ≡ is_short_arm lij lkj }
{
    (lij < 1e-9) | (lkj < 1e-9)
}

fn near(a: Angle, rij: Vec3, rkj: Vec3, lij: f64, lkj: f64) -> Bend
    ensures { result ≡ bend_near a rij rkj lij lkj }
{
    let both = lij * lkj;
    let c = float::clamp(vectors::dot(rij, rkj) / both, -1.0, 1.0);
    let d = c - a.rest;
    let coef = -(a.k * d);
    let fi = side(rij, rkj, lij, both, c, coef);
    let fk = side(rkj, rij, lkj, both, c, coef);
    Bend {
        energy: 0.5 * a.k * d * d,
        rij: rij,
        fi: fi,
        rkj: rkj,
        fk: fk,
    }
}

// No bend where an arm is too short.
pub fn bend(a: Angle, rij: Vec3, rkj: Vec3) -> Option<Bend>
    ensures { result ≡ bend_of a rij rkj }
{
    let lij = vectors::norm(rij);
    let lkj = vectors::norm(rkj);
    if is_short_arm(lij, lkj) {
        return None;
    }
    Some(near(a, rij, rkj, lij, lkj))
}

// fi on the first atom, fk on the last, and the sum of both times -1 on the apex; an atom that is not there gets nothing.
fn push(forces: &mut [f64], c: Corner, fi: Vec3, fk: Vec3)
    ensures { forces.new ≡ forces_with_bend forces.old c fi fk }
{
    virial::kernel::add_at(forces, c.first, fi);
    virial::kernel::add_at(forces, c.last, fk);
    virial::kernel::add_at(forces, c.apex, vectors::scale(vectors::add(fi, fk), -1.0));
}

// The energy and both arms' virials.
fn with_bend(sum: Sum, energy: f64, rij: Vec3, fi: Vec3, rkj: Vec3, fk: Vec3) -> Sum
    ensures { result ≡ sum_with_bend sum energy rij fi rkj fk }
{
    let s = virial::kernel::with_energy(sum, energy);
    let t = virial::kernel::with_pair(s, rij, fi);
    virial::kernel::with_pair(t, rkj, fk)
}

pub fn apply(sum: Sum, forces: &mut [f64], c: Corner, bend: Option<Bend>) -> Sum
    ensures { held result forces.new ≡ bent (held sum forces.old) c bend }
{
    match bend {
        None => sum,
        Some(b) => {
            push(forces, c, b.fi, b.fk);
            with_bend(sum, b.energy, b.rij, b.fi, b.rkj, b.fk)
        }
    }
}
