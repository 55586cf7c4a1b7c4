// What both calls ask, in 01's order: an evaluation's tests with those of the motion. Total.
ghost use Rattle.std.specs.Prelude.{◌≡◌};
ghost use Rattle.verlet_step.specs.Asked.{motion_fits, motion_ok};
ghost use Rattle.verlet_step.specs.Calls.{motion_on, motion_asked};

use crate::Pace;
use answer::Refusal;
use evaluate::{Molecule, Setting};
use neighbor::State;

pub fn motion_fits(positions: usize, velocities: usize, masses: usize) -> bool
    ensures { result ≡ motion_fits positions velocities masses }
{
    (velocities == positions) & (masses == positions / 3)
}

// `limit` is that of the velocities.
fn motion_ok(
    limit: f64,
    pace: Pace,
    masses: &[f64],
    velocities: &[f64],
    forces: &[f64],
    potential: f64,
) -> bool
    ensures { result ≡ motion_ok limit pace.dt pace.thermostat masses.now velocities.now forces.now potential }
{
    let thermostat = pace.thermostat;
    verlet::ranged::time_step(pace.dt)
        & verlet::ranged::thermostat_in_range(thermostat)
        & ranges::all_between(0.0009765625, 1048576.0, masses)
        & ranges::all_within(limit, velocities)
        & ranges::all_within(cell::ranged::OTHER, forces)
        & virial::ranged::plain(potential)
}

// Refusals 1, 2, 6, 3, 4, 5; `limit` as above.
pub(crate) fn asked(
    limit: f64,
    setting: Setting,
    pace: Pace,
    s: State,
    potential: f64,
    molecule: &Molecule,
    masses: &[f64],
    exclusions: &[u32],
    positions: &[f64],
    velocities: &[f64],
    pairs: &[u32],
    references: &[f64],
    starts: &[u32],
    items: &[u32],
    forces: &[f64],
) -> Result<(), Refusal>
    ensures { result ≡ motion_asked limit pace.thermostat (motion_on setting pace.dt s potential molecule.now masses.now exclusions.now positions.now velocities.now pairs.now references.now starts.now items.now forces.now) }
{
    let fits = motion_fits(positions.len(), velocities.len(), masses.len());
    let inside = motion_ok(limit, pace, masses, velocities, forces, potential);
    evaluate::asked::asked(
        fits, inside, setting, s, molecule, positions, exclusions, pairs, references, starts,
        items, forces,
    )
}
