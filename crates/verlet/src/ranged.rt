// The tests of lengths and ranges. Total, and also for the crates above.
ghost use Rattle.std.specs.Prelude.{◌≡◌};
ghost use Rattle.verlet.specs.Ranged.{time_step, thermal, thermostat_in_range, atoms_in_range, temperature_in_range, berendsen_in_range};

use crate::Thermostat;
use virial::Units;

// Most atoms of any call.
pub const MOST: usize = 16384;

pub fn time_step(x: f64) -> bool
    ensures { result ≡ time_step x }
{
    ranges::is_within(1024.0, x)
}

// A target temperature and a coupling time.
fn thermal(target: f64, tau: f64) -> bool
    ensures { result ≡ thermal target tau }
{
    ranges::is_between(0.0, 1048576.0, target) & ranges::is_between(0.0009765625, 1048576.0, tau)
}

pub fn thermostat_in_range(t: Option<Thermostat>) -> bool
    ensures { result ≡ thermostat_in_range t }
{
    match t {
        None => true,
        Some(Thermostat { target_k, tau_fs }) => thermal(target_k, tau_fs),
    }
}

pub fn atoms_in_range(units: Units, velocities: &[f64], masses: &[f64]) -> bool
    ensures { result ≡ atoms_in_range units velocities.now masses.now }
{
    virial::ranged::units_in_range(units)
        & ranges::all_within(1048576.0, velocities)
        & ranges::all_between(0.0009765625, 1048576.0, masses)
}

pub fn temperature_in_range(units: Units, dof: f64, velocities: &[f64], masses: &[f64]) -> bool
    ensures { result ≡ temperature_in_range units dof velocities.now masses.now }
{
    virial::ranged::plain(dof) & atoms_in_range(units, velocities, masses)
}

pub fn berendsen_in_range(
    units: Units,
    dt: f64,
    target: f64,
    tau: f64,
    masses: &[f64],
    velocities: &[f64],
) -> bool
    ensures { result ≡ berendsen_in_range units dt target tau masses.now velocities.now }
{
    time_step(dt) & thermal(target, tau) & atoms_in_range(units, velocities, masses)
}
