// A step without tests and without the thermostat: total on every number and length. No public call.
ghost use Rattle.std.specs.Prelude.{◌≡◌};
ghost use Rattle.verlet_step.specs.Calls.{motion_on};
ghost use Rattle.verlet_step.specs.Steps.{LandSays, AdvanceSays, kicked, kicked_after, stepped_from};

use crate::{Stepped, ends};
use answer::Refusal;
use evaluate::{Evaluated, Molecule, Setting};
use neighbor::State;
use verlet::moves;
use virial::Units;

// The evaluation's answer with a potential.
fn with_potential(e: Evaluated, stopped: bool, potential: f64) -> Stepped
    ensures { result ≡ stepped_from e stopped potential }
{
    let done = e.done;
    let state = e.state;
    Stepped {
        done,
        stopped,
        rebuilt: e.rebuilt,
        state,
        potential,
    }
}

// Half a kick by the new forces; nothing, and the old potential, where the evaluation refused (7, 8).
fn second_kick(
    e: Evaluated,
    potential: f64,
    units: Units,
    dt: f64,
    forces: &[f64],
    masses: &[f64],
    velocities: &mut [f64],
) -> Stepped
    ensures { kicked result velocities.new ≡ kicked_after potential units dt forces.now masses.now velocities.old e e.done }
{
    let done = e.done;
    let sum = e.sum;
    let k = verlet_kick::second(
        done, sum.energy, potential, units, dt, forces, masses, velocities,
    );
    with_potential(e, k.stopped, k.potential)
}

// The evaluation at the positions and the second kick: the end of `advance`, and what `finish` resumes.
pub fn land(
    setting: Setting,
    dt: f64,
    s: State,
    potential: f64,
    molecule: &Molecule,
    masses: &[f64],
    exclusions: &[u32],
    positions: &[f64],
    velocities: &mut [f64],
    pairs: &mut [u32],
    references: &mut [f64],
    starts: &mut [u32],
    items: &mut [u32],
    forces: &mut [f64],
) -> Stepped
    ensures { LandSays (motion_on setting dt s potential molecule.now masses.now exclusions.now positions.now velocities.old pairs.old references.old starts.old items.old forces.old) result velocities.new pairs.new references.new starts.new items.new forces.new }
{
    let units = setting.units;
    let e = evaluate::kernel::settle(
        setting, s, molecule, positions, exclusions, pairs, references, starts, items, forces,
    );
    second_kick(e, potential, units, dt, forces, masses, velocities)
}

// The drift's test, half a kick, the drift, and `land`.
pub fn advance(
    setting: Setting,
    dt: f64,
    s: State,
    potential: f64,
    molecule: &Molecule,
    masses: &[f64],
    exclusions: &[u32],
    positions: &mut [f64],
    velocities: &mut [f64],
    pairs: &mut [u32],
    references: &mut [f64],
    starts: &mut [u32],
    items: &mut [u32],
    forces: &mut [f64],
) -> Stepped
    ensures { AdvanceSays (motion_on setting dt s potential molecule.now masses.now exclusions.now positions.old velocities.old pairs.old references.old starts.old items.old forces.old) result positions.new velocities.new pairs.new references.new starts.new items.new forces.new }
{
    let units = setting.units;
    if !moves::drifts(units, dt, forces, masses, positions, velocities) {
        return ends::unmoved(s, potential, Refusal::Drifted);
    }
    moves::kick_and_drift(units, dt, forces, masses, positions, velocities);
    land(
        setting, dt, s, potential, molecule, masses, exclusions, positions, velocities, pairs,
        references, starts, items, forces,
    )
}
