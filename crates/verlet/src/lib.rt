// Kinetic energy, temperature and the Berendsen thermostat (verlet.rs), and the parts of a step. Every public call tests its
// arguments; specs/Calls.antt says what each answers and leaves.
#![tactic(auto)]

ghost use Rattle.verlet.specs.Calls.{KineticEnergySays, TemperatureSays, BerendsenSays};

use answer::Refusal;
use virial::Units;

pub mod kernel;
pub mod moves;
pub mod ranged;

// The Rust's `Berendsen`: the temperature aimed at, and the time in which it is neared.
#[derive(Clone, Copy)]
pub struct Thermostat {
    pub target_k: f64,
    pub tau_fs: f64,
}

pub fn kinetic_energy(units: Units, velocities: &[f64], masses: &[f64]) -> Result<f64, Refusal>
    ensures { KineticEnergySays units velocities.now masses.now result }
{
    let atoms = masses.len();
    if velocities.len() != 3 * atoms {
        return Err(Refusal::Lengths);
    }
    if ranged::MOST < atoms {
        return Err(Refusal::TooMany { atoms });
    }
    if !ranged::atoms_in_range(units, velocities, masses) {
        return Err(Refusal::Range);
    }
    Ok(kernel::kinetic_energy(units, velocities, masses))
}

pub fn temperature(
    units: Units,
    dof: f64,
    velocities: &[f64],
    masses: &[f64],
) -> Result<f64, Refusal>
    ensures { TemperatureSays units dof velocities.now masses.now result }
{
    let atoms = masses.len();
    if velocities.len() != 3 * atoms {
        return Err(Refusal::Lengths);
    }
    if ranged::MOST < atoms {
        return Err(Refusal::TooMany { atoms });
    }
    if !ranged::temperature_in_range(units, dof, velocities, masses) {
        return Err(Refusal::Range);
    }
    Ok(kernel::temperature(units, dof, velocities, masses))
}

// The Rust's `apply_berendsen`.
pub fn berendsen(
    units: Units,
    dt: f64,
    target_k: f64,
    tau_fs: f64,
    masses: &[f64],
    velocities: &mut [f64],
) -> Result<(), Refusal>
    ensures { BerendsenSays units dt target_k tau_fs masses.now velocities.old result velocities.new }
{
    let atoms = masses.len();
    if velocities.len() != 3 * atoms {
        return Err(Refusal::Lengths);
    }
    if ranged::MOST < atoms {
        return Err(Refusal::TooMany { atoms });
    }
    if !ranged::berendsen_in_range(units, dt, target_k, tau_fs, masses, velocities) {
        return Err(Refusal::Range);
    }
    kernel::rescale(units, dt, target_k, tau_fs, masses, velocities);
    Ok(())
}
