// Settling a freshly packed box (fire.rs, `fire`): damped steps of velocity Verlet down to a local minimum of the energy.
// specs/Calls.antt says what the call answers and leaves, specs/Steer.antt has the source's loops.
#![tactic(auto)]

use answer::Refusal;
use evaluate::{Molecule, Setting};
use neighbor::State;

mod asked;
mod kernel;
mod steer;

ghost use Rattle.fire.specs.Calls.{settling_on, FireSays};

// Most iterations, the force tolerance (eV/A, on the largest component), the first time step and the largest (fs).
#[derive(Clone, Copy)]
pub struct FireOptions {
    pub max_iters: u32,
    pub force_tol: f64,
    pub dt: f64,
    pub dt_max: f64,
}

// A relaxation, or why not and in which iteration; whether a 7 or 8 stopped it after a drift; whether the tolerance was reached; energy and largest force
// component of the last evaluation that was answered, zero where there was none; the list's state, which comes back in every case. Positions, velocities and
// forces stand in what the caller lends.
#[derive(Drop)]
pub struct Fired {
    pub done: Result<(), Refusal>,
    pub iteration: u32,
    pub stopped: bool,
    pub converged: bool,
    pub energy: f64,
    pub max_force: f64,
    pub state: State,
}

// Relaxes the positions to a local minimum of the energy; refusals 1, 2, 6, 3, 4, 5, then 7 and 8, in an iteration also the drift. The velocities are the
// method's own: at rest after the first evaluation. `forces` is a room.
pub fn fire(
    o: FireOptions,
    setting: Setting,
    s: State,
    molecule: &Molecule,
    masses: &[f64],
    exclusions: &[u32],
    positions: &mut [f64],
    velocities: &mut [f64],
    pairs: &mut [u32],
    references: &mut [f64],
    starts: &mut [u32],
    items: &mut [u32],
    forces: &mut [f64],
) -> Fired
    ensures { FireSays o (settling_on o setting s molecule.now masses.now exclusions.now positions.old velocities.old pairs.old references.old starts.old items.old forces.old) result positions.new velocities.new pairs.new references.new starts.new items.new forces.new }
{
    let a = asked::asked(
        o, setting, s, molecule, masses, exclusions, positions, velocities, pairs, references,
        starts, items, forces,
    );
    if let Err(why) = a {
        return kernel::refuse(s, why);
    }
    let begun = kernel::begin(
        setting, o.dt, s, 0.0, molecule, masses, exclusions, positions, velocities, pairs,
        references, starts, items, forces,
    );
    let t = kernel::relax(
        setting, o, begun, molecule, masses, exclusions, positions, velocities, pairs, references,
        starts, items, forces,
    );
    kernel::end(o.force_tol, t)
}
