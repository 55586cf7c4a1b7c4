// The work for the crates above: total on every number and length, and no range is tested. No public call.
ghost use Rattle.std.specs.Prelude.{◌≡◌, ◌+◌, ◌*◌, ◌≤◌, length};
ghost use Rattle.lists.specs.Atoms.{atoms_of};
ghost use Rattle.virial.specs.Virial.{velocity_at};
ghost use Rattle.verlet.specs.Verlet.{kinetic_at, kinetic_energy_of, temperature_of, degrees_of, current_of, lambda_of, scaled_by};
ghost use Rattle.verlet.specs.Parts.{rescaled_by, thermostat_by};

use crate::{Thermostat, ranged};
use cell::Vec3;
use virial::Units;

fn velocity(vs: &[f64], i: usize) -> Vec3
    requires { 3 * i + 3 ≤ length vs.now }
    ensures { result ≡ velocity_at vs.now i }
{
    let k = 3 * i;
    Vec3 {
        x: vs[k],
        y: vs[k + 1],
        z: vs[k + 2],
    }
}

// What one atom adds.
fn kinetic(accel: f64, m: f64, v: Vec3) -> f64
    ensures { result ≡ kinetic_at accel m v }
{
    0.5 * m * cell::vectors::norm2(v) / accel
}

// Over the atoms of both lists.
pub fn kinetic_energy(units: Units, vs: &[f64], ms: &[f64]) -> f64
    ensures { result ≡ kinetic_energy_of units vs.now ms.now }
{
    let accel = units.force_to_accel;
    let n = virial::ranged::shorter(vs.len() / 3, ms.len());
    let mut ke = 0.0;
    for i in 0..n {
        let v = velocity(vs, i);
        ke = ke + kinetic(accel, ms[i], v);
    }
    ke
}

pub fn temperature(units: Units, dof: f64, vs: &[f64], ms: &[f64]) -> f64
    ensures { result ≡ temperature_of units dof vs.now ms.now }
{
    if dof <= 0.0 {
        return 0.0;
    }
    2.0 * kinetic_energy(units, vs, ms) / (dof * units.kb_ev_per_k)
}

// ---- Berendsen

fn degrees(n: usize) -> f64
    requires { n ≤ 16384 }
    ensures { result ≡ degrees_of n }
{
    3.0 * n as f64
}

// The temperature of three degrees an atom.
fn current(units: Units, ms: &[f64], vs: &[f64]) -> f64
    requires { atoms_of vs.now ≤ 16384 }
    ensures { result ≡ current_of units ms.now vs.now }
{
    let dof = degrees(vs.len() / 3);
    let ke = kinetic_energy(units, vs, ms);
    2.0 * ke / (dof * units.kb_ev_per_k)
}

fn lambda(dt: f64, target: f64, tau: f64, t: f64) -> f64
    ensures { result ≡ lambda_of dt target tau t }
{
    let ratio = target / t;
    float::root(float::max(1.0 + dt / tau * (ratio - 1.0), 0.0))
}

fn scale_all(vs: &mut [f64], s: f64)
    ensures { vs.new ≡ scaled_by s vs.old }
{
    for v in vs.iter_mut() {
        *v = *v * s;
    }
}

// `apply_berendsen`; over 16,384 atoms nothing.
pub fn rescale(units: Units, dt: f64, target: f64, tau: f64, ms: &[f64], vs: &mut [f64])
    ensures { vs.new ≡ rescaled_by units dt target tau ms.now vs.old }
{
    let atoms = vs.len() / 3;
    if ranged::MOST < atoms {
        return;
    }
    if atoms == 0 {
        return;
    }
    let t = current(units, ms, vs);
    if t <= 1e-12 {
        return;
    }
    let s = lambda(dt, target, tau, t);
    scale_all(vs, s);
}

// The end of a step.
pub fn thermostat(t: Option<Thermostat>, units: Units, dt: f64, ms: &[f64], vs: &mut [f64])
    ensures { vs.new ≡ thermostat_by t units dt ms.now vs.old }
{
    match t {
        None => {}
        Some(Thermostat { target_k, tau_fs }) => {
            rescale(units, dt, target_k, tau_fs, ms, vs);
        }
    }
}
