// Energy, force and virial bundles, and the pressures that they feed (virial.rs). Every public call tests its arguments;
// specs/Calls.antt says what each answers and leaves.
#![tactic(auto)]

ghost use Rattle.virial.specs.Calls.{ZerosSays, MergeSays, AddPairForceSays, VirialFromPairSays, ScalarVirialSays, PressureSays, PressureTensorSays, ToGpaSays};

use answer::Refusal;
use cell::{Rows, Vec3};

pub mod kernel;
pub mod ranged;
mod tensors;

// Energy, and the virial row by row. (The Rust's `Contribution`; its forces are a lent slice, three floats an atom.)
#[repr(C)]
#[derive(Clone, Copy)]
pub struct Sum {
    pub energy: f64,
    pub xx: f64,
    pub xy: f64,
    pub xz: f64,
    pub yx: f64,
    pub yy: f64,
    pub yz: f64,
    pub zx: f64,
    pub zy: f64,
    pub zz: f64,
}

// The unit constants, which the caller supplies.
#[repr(C)]
#[derive(Clone, Copy)]
pub struct Units {
    pub force_to_accel: f64,
    pub kb_ev_per_k: f64,
    pub ke_coulomb: f64,
    pub ev_per_a3_to_gpa: f64,
}

// Most atoms of any call.
const MOST: usize = 16384;

pub fn zeros(forces: &mut [f64]) -> Result<Sum, Refusal>
    ensures { ZerosSays forces.old result forces.new }
{
    let atoms = forces.len() / 3;
    if forces.len() % 3 != 0 {
        return Err(Refusal::Lengths);
    }
    if MOST < atoms {
        return Err(Refusal::TooMany { atoms });
    }
    kernel::clear(forces);
    Ok(kernel::zero())
}

// `added` are the forces of `other`.
pub fn merge(sum: Sum, forces: &mut [f64], other: Sum, added: &[f64]) -> Result<Sum, Refusal>
    ensures { MergeSays sum forces.old other added.now result forces.new }
{
    let atoms = forces.len() / 3;
    if !ranged::merge_fits(forces.len(), added.len()) {
        return Err(Refusal::Lengths);
    }
    if MOST < atoms {
        return Err(Refusal::TooMany { atoms });
    }
    if !ranged::merge_in_range(sum, forces, other, added) {
        return Err(Refusal::Range);
    }
    kernel::merge_forces(forces, added);
    Ok(kernel::merge_sum(sum, other))
}

// f on atom i and -f on atom j, d apart.
pub fn add_pair_force(
    sum: Sum,
    forces: &mut [f64],
    i: u32,
    j: u32,
    d: Vec3,
    f: Vec3,
) -> Result<Sum, Refusal>
    ensures { AddPairForceSays sum forces.old i j d f result forces.new }
{
    let atoms = forces.len() / 3;
    if forces.len() % 3 != 0 {
        return Err(Refusal::Lengths);
    }
    if MOST < atoms {
        return Err(Refusal::TooMany { atoms });
    }
    if !ranged::pair_in_range(sum, forces, d, f) {
        return Err(Refusal::Range);
    }
    let a = i as usize;
    let b = j as usize;
    if (a < atoms) & (b < atoms) {
        return Ok(kernel::add_pair_force(sum, forces, a, b, d, f));
    }
    Err(Refusal::NotThere { row: 0 })
}

pub fn virial_from_pair(virial: [[f64; 3]; 3], d: Vec3, f: Vec3) -> Result<Rows, Refusal>
    ensures { VirialFromPairSays virial d f result }
{
    if ranged::virial_in_range(virial, d, f) {
        return Ok(cell::matrices::rows_of(tensors::with_pair(virial, d, f)));
    }
    Err(Refusal::Range)
}

pub fn scalar_virial(virial: [[f64; 3]; 3]) -> Result<f64, Refusal>
    ensures { ScalarVirialSays virial result }
{
    if ranged::rows_plain(virial) {
        return Ok(virial[0][0] + virial[1][1] + virial[2][2]);
    }
    Err(Refusal::Range)
}

pub fn pressure(kinetic: f64, scalar: f64, volume: f64) -> Result<f64, Refusal>
    ensures { PressureSays kinetic scalar volume result }
{
    if ranged::plain(kinetic) & ranged::plain(scalar) & ranged::plain(volume) {
        return Ok(tensors::pressure(kinetic, scalar, volume));
    }
    Err(Refusal::Range)
}

pub fn pressure_tensor(
    units: Units,
    volume: f64,
    virial: [[f64; 3]; 3],
    velocities: &[f64],
    masses: &[f64],
) -> Result<Rows, Refusal>
    ensures { PressureTensorSays units volume virial velocities.now masses.now result }
{
    let atoms = masses.len();
    if velocities.len() != 3 * atoms {
        return Err(Refusal::Lengths);
    }
    if MOST < atoms {
        return Err(Refusal::TooMany { atoms });
    }
    if !ranged::tensor_in_range(units, volume, virial, velocities, masses) {
        return Err(Refusal::Range);
    }
    let p = tensors::pressure_tensor(units, volume, virial, velocities, masses);
    Ok(cell::matrices::rows_of(p))
}

pub fn to_gpa(units: Units, pressure: f64) -> Result<f64, Refusal>
    ensures { ToGpaSays units pressure result }
{
    if ranged::units_in_range(units) & ranged::plain(pressure) {
        return Ok(pressure * units.ev_per_a3_to_gpa);
    }
    Err(Refusal::Range)
}
