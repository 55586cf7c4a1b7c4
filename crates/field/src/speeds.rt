// Kinetic energy, temperature and thermostat (verlet.rs).
ghost use Rattle.field_structs.specs.Flat.{flat_done, flat_number};
ghost use Rattle.field_structs.specs.Shown.{Shown};
ghost use Rattle.verlet.specs.Calls.{BerendsenSays, KineticEnergySays, TemperatureSays};

use field_structs::{FlatDone, FlatNumber};
use virial::Units;

// The kinetic energy; velocities are three floats a mass. Refusals 1, 2, 3.
#[unsafe(no_mangle)]
pub extern "C" fn tyn_kinetic_energy(units: Units, velocities: &[f64], masses: &[f64]) -> FlatNumber
    ensures { Shown flat_number (KineticEnergySays units velocities.now masses.now) result }
{
    verlet::kinetic_energy(units, velocities, masses).into()
}

// The temperature by dof degrees of freedom. Refusals 1, 2, 3.
#[unsafe(no_mangle)]
pub extern "C" fn tyn_temperature(
    units: Units,
    dof: f64,
    velocities: &[f64],
    masses: &[f64],
) -> FlatNumber
    ensures { Shown flat_number (TemperatureSays units dof velocities.now masses.now) result }
{
    verlet::temperature(units, dof, velocities, masses).into()
}

// The velocities rescaled by Berendsen's thermostat. Refusals 1, 2, 3.
#[unsafe(no_mangle)]
pub extern "C" fn tyn_berendsen(
    units: Units,
    dt: f64,
    target_k: f64,
    tau_fs: f64,
    masses: &[f64],
    velocities: &mut [f64],
) -> FlatDone
    ensures { Shown flat_done (λ a. BerendsenSays units dt target_k tau_fs masses.now velocities.old a velocities.new) result }
{
    verlet::berendsen(units, dt, target_k, tau_fs, masses, velocities).into()
}
