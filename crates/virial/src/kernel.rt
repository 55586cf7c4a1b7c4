// The work for the crates above: total on every number, index and length, and no range is tested. No public call.
ghost use Rattle.std.specs.Prelude.{◌≡◌, length};
ghost use Rattle.virial.specs.Virial.{zero_sum, zero_forces, merged_sum, merged_forces, added_at, forces_with_pair, sum_with_pair, sum_with_energy};

use crate::{Sum, ranged};
use cell::Vec3;

pub fn zero() -> Sum
    ensures { result ≡ zero_sum }
{
    Sum {
        energy: 0.0,
        xx: 0.0,
        xy: 0.0,
        xz: 0.0,
        yx: 0.0,
        yy: 0.0,
        yz: 0.0,
        zx: 0.0,
        zy: 0.0,
        zz: 0.0,
    }
}

// Every force +0.
pub fn clear(forces: &mut [f64])
    ensures { forces.new ≡ zero_forces (length forces.old) }
{
    for force in forces.iter_mut() {
        *force = 0.0;
    }
}

pub fn merge_sum(sum: Sum, other: Sum) -> Sum
    ensures { result ≡ merged_sum sum other }
{
    Sum {
        energy: sum.energy + other.energy,
        xx: sum.xx + other.xx,
        xy: sum.xy + other.xy,
        xz: sum.xz + other.xz,
        yx: sum.yx + other.yx,
        yy: sum.yy + other.yy,
        yz: sum.yz + other.yz,
        zx: sum.zx + other.zx,
        zy: sum.zy + other.zy,
        zz: sum.zz + other.zz,
    }
}

// As far as both go.
pub fn merge_forces(forces: &mut [f64], added: &[f64])
    ensures { forces.new ≡ merged_forces forces.old added.now }
{
    let n = ranged::shorter(forces.len(), added.len());
    for k in 0..n {
        forces[k] = forces[k] + added[k];
    }
}

// v added to the three floats of atom i; nothing where there is no such atom.
pub fn add_at(forces: &mut [f64], i: usize, v: Vec3)
    ensures { forces.new ≡ added_at forces.old i v }
{
    if i < forces.len() / 3 {
        let k = 3 * i;
        let x = forces[k] + v.x;
        let y = forces[k + 1] + v.y;
        let z = forces[k + 2] + v.z;
        forces[k] = x;
        forces[k + 1] = y;
        forces[k + 2] = z;
    }
}

// One pair's virial added.
pub fn with_pair(sum: Sum, d: Vec3, f: Vec3) -> Sum
    ensures { result ≡ sum_with_pair sum d f }
{
    Sum {
        energy: sum.energy,
        xx: sum.xx + d.x * f.x,
        xy: sum.xy + d.x * f.y,
        xz: sum.xz + d.x * f.z,
        yx: sum.yx + d.y * f.x,
        yy: sum.yy + d.y * f.y,
        yz: sum.yz + d.y * f.z,
        zx: sum.zx + d.z * f.x,
        zy: sum.zy + d.z * f.y,
        zz: sum.zz + d.z * f.z,
    }
}

pub fn with_energy(sum: Sum, energy: f64) -> Sum
    ensures { result ≡ sum_with_energy sum energy }
{
    Sum {
        energy: sum.energy + energy,
        xx: sum.xx,
        xy: sum.xy,
        xz: sum.xz,
        yx: sum.yx,
        yy: sum.yy,
        yz: sum.yz,
        zx: sum.zx,
        zy: sum.zy,
        zz: sum.zz,
    }
}

// f on atom i and -f on atom j, and the pair's virial; an atom that is not there gets nothing.
pub fn add_pair_force(sum: Sum, forces: &mut [f64], i: usize, j: usize, d: Vec3, f: Vec3) -> Sum
    ensures { (result ≡ sum_with_pair sum d f) × (forces.new ≡ forces_with_pair forces.old i j f) }
{
    add_at(forces, i, f);
    add_at(forces, j, cell::vectors::scale(f, -1.0));
    with_pair(sum, d, f)
}
