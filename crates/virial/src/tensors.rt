// Virials and pressures as three rows of three floats, and the answers that carry them.
ghost use Rattle.std.specs.Prelude.{◌≡◌, ◌+◌, ◌*◌, ◌≤◌, min, length};
ghost use Rattle.lists.specs.Atoms.{atoms_of};
ghost use Rattle.virial.specs.Virial.{row_with_pair, with_pair, pressure_of, zero_tensor, velocity_at, row_with_atom, with_atom, kinetic_of, row_over_volume, over_volume, pressure_tensor_of};

use crate::{Units, ranged};
use cell::Vec3;

fn row_with_pair(w: [f64; 3], d: f64, f: Vec3) -> [f64; 3]
    ensures { result ≡ row_with_pair w d f }
{
    [w[0] + d * f.x, w[1] + d * f.y, w[2] + d * f.z]
}

pub fn with_pair(w: [[f64; 3]; 3], d: Vec3, f: Vec3) -> [[f64; 3]; 3]
    ensures { result ≡ with_pair w d f }
{
    [
        row_with_pair(w[0], d.x, f),
        row_with_pair(w[1], d.y, f),
        row_with_pair(w[2], d.z, f),
    ]
}

pub fn pressure(kinetic: f64, scalar: f64, volume: f64) -> f64
    ensures { result ≡ pressure_of kinetic scalar volume }
{
    if volume <= 0.0 {
        return 0.0;
    }
    (2.0 * kinetic + scalar) / (3.0 * volume)
}

fn zero_tensor() -> [[f64; 3]; 3]
    ensures { result ≡ zero_tensor }
{
    [[0.0, 0.0, 0.0], [0.0, 0.0, 0.0], [0.0, 0.0, 0.0]]
}

fn row_with_atom(unit: f64, p: [f64; 3], mv: f64, v: Vec3) -> [f64; 3]
    ensures { result ≡ row_with_atom unit p mv v }
{
    [
        p[0] + mv * v.x / unit,
        p[1] + mv * v.y / unit,
        p[2] + mv * v.z / unit,
    ]
}

fn with_atom(unit: f64, p: [[f64; 3]; 3], m: f64, v: Vec3) -> [[f64; 3]; 3]
    ensures { result ≡ with_atom unit p m v }
{
    [
        row_with_atom(unit, p[0], m * v.x, v),
        row_with_atom(unit, p[1], m * v.y, v),
        row_with_atom(unit, p[2], m * v.z, v),
    ]
}

fn velocity(vs: &[f64], i: usize) -> Vec3
    requires { 3 * i + 3 ≤ length vs.now }
    ensures { result ≡ velocity_at vs.now i }
{
    let k = 3 * i;
    Vec3 {
        x: vs[k],
        y: vs[k + 1],
        z: vs[k + 2],
    }
}

// Over the atoms of both lists.
fn kinetic(unit: f64, vs: &[f64], ms: &[f64]) -> [[f64; 3]; 3]
    ensures { result ≡ kinetic_of unit vs.now ms.now (min (atoms_of vs.now) (length ms.now)) }
{
    let n = ranged::shorter(vs.len() / 3, ms.len());
    let mut p = zero_tensor();
    for i in 0..n {
        let v = velocity(vs, i);
        let t = with_atom(unit, p, ms[i], v);
        p = t;
    }
    p
}

fn row_over_volume(p: [f64; 3], w: [f64; 3], volume: f64) -> [f64; 3]
    ensures { result ≡ row_over_volume p w volume }
{
    [
        (p[0] + w[0]) / volume,
        (p[1] + w[1]) / volume,
        (p[2] + w[2]) / volume,
    ]
}

fn over_volume(p: [[f64; 3]; 3], w: [[f64; 3]; 3], volume: f64) -> [[f64; 3]; 3]
    ensures { result ≡ over_volume p w volume }
{
    [
        row_over_volume(p[0], w[0], volume),
        row_over_volume(p[1], w[1], volume),
        row_over_volume(p[2], w[2], volume),
    ]
}

pub fn pressure_tensor(
    units: Units,
    volume: f64,
    w: [[f64; 3]; 3],
    vs: &[f64],
    ms: &[f64],
) -> [[f64; 3]; 3]
    ensures { result ≡ pressure_tensor_of units volume w vs.now ms.now }
{
    if volume <= 0.0 {
        return zero_tensor();
    }
    let p = kinetic(units.force_to_accel, vs, ms);
    over_volume(p, w, volume)
}
