// One step of velocity Verlet and the call that finishes a stopped one (verlet.rs, `verlet_step`): the loops of `verlet` with the evaluation between them.
// specs/Calls.antt says what both answer and leave; `kernel` has the work without the tests and without the thermostat, for the crates above.
#![tactic(auto)]

use answer::Refusal;
use evaluate::{Molecule, Setting};
use neighbor::State;
use verlet::Thermostat;

mod asked;
mod ends;
pub mod kernel;

ghost use Rattle.verlet_step.specs.Calls.{motion_on, StepSays, FinishSays, StepLists};

pub use asked::motion_fits;

// How a step goes on in time.
#[derive(Clone, Copy)]
pub struct Pace {
    pub dt: f64,
    pub thermostat: Option<Thermostat>,
}

// A step, or why not; whether a 7 or 8 stopped it after the drift; whether the list was built anew; the list's state and the potential, which come back in
// every case. Positions, velocities and forces stand in what the caller lends.
#[derive(Clone, Copy)]
pub struct Stepped {
    pub done: Result<(), Refusal>,
    pub stopped: bool,
    pub rebuilt: bool,
    pub state: State,
    pub potential: f64,
}

// One step; refusals 1, 2, 6, 3, 4, 5, the drift, 7, 8. `forces` and `potential` are those at the positions.
pub fn step(
    setting: Setting,
    pace: Pace,
    s: State,
    potential: f64,
    molecule: &Molecule,
    masses: &[f64],
    exclusions: &[u32],
    positions: &mut [f64],
    velocities: &mut [f64],
    pairs: &mut [u32],
    references: &mut [f64],
    starts: &mut [u32],
    items: &mut [u32],
    forces: &mut [f64],
) -> Stepped
    ensures says { StepSays pace.thermostat (motion_on setting pace.dt s potential molecule.now masses.now exclusions.now positions.old velocities.old pairs.old references.old starts.old items.old forces.old) result positions.new velocities.new pairs.new references.new starts.new items.new forces.new }
    ensures lists { StepLists (motion_on setting pace.dt s potential molecule.now masses.now exclusions.now positions.old velocities.old pairs.old references.old starts.old items.old forces.old) result positions.new pairs.new }
{
    let a = asked::asked(
        cell::ranged::ENTRY,
        setting,
        pace,
        s,
        potential,
        molecule,
        masses,
        exclusions,
        positions,
        velocities,
        pairs,
        references,
        starts,
        items,
        forces,
    );
    if let Err(why) = a {
        return ends::unmoved(s, potential, why);
    }
    let r = kernel::advance(
        setting, pace.dt, s, potential, molecule, masses, exclusions, positions, velocities, pairs,
        references, starts, items, forces,
    );
    let units = setting.units;
    ends::cool(r, units, pace, masses, velocities);
    r
}

// The rest of a step that a 7 or 8 stopped: the same arguments with more room. Refusals as of a step, but velocities to 2^500 and no drift.
pub fn finish(
    setting: Setting,
    pace: Pace,
    s: State,
    potential: f64,
    molecule: &Molecule,
    masses: &[f64],
    exclusions: &[u32],
    positions: &[f64],
    velocities: &mut [f64],
    pairs: &mut [u32],
    references: &mut [f64],
    starts: &mut [u32],
    items: &mut [u32],
    forces: &mut [f64],
) -> Stepped
    ensures says { FinishSays pace.thermostat (motion_on setting pace.dt s potential molecule.now masses.now exclusions.now positions.now velocities.old pairs.old references.old starts.old items.old forces.old) result velocities.new pairs.new references.new starts.new items.new forces.new }
    ensures lists { StepLists (motion_on setting pace.dt s potential molecule.now masses.now exclusions.now positions.now velocities.old pairs.old references.old starts.old items.old forces.old) result positions.now pairs.new }
{
    let a = asked::asked(
        cell::ranged::OTHER,
        setting,
        pace,
        s,
        potential,
        molecule,
        masses,
        exclusions,
        positions,
        velocities,
        pairs,
        references,
        starts,
        items,
        forces,
    );
    if let Err(why) = a {
        return ends::unmoved(s, potential, why);
    }
    let r = kernel::land(
        setting, pace.dt, // as the stopped step had it
        s, potential, molecule, masses, exclusions, positions, velocities, pairs, references,
        starts, items, forces,
    );
    let units = setting.units;
    ends::cool(r, units, pace, masses, velocities);
    r
}
