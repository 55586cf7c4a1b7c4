// The relaxation without tests: the first evaluation, an iteration, all of them.
ghost use Rattle.std.specs.Prelude.{◌≡◌, false, ◌<◌};
ghost use Rattle.answer.specs.Seen.{seen};
ghost use Rattle.verlet_step.specs.Calls.{motion_on};
ghost use Rattle.verlet_step.specs.Steps.{stepped_from};
ghost use Rattle.fire.specs.Calls.{converged_of, goes_on};
ghost use Rattle.fire.specs.Steps.{stage_of, paced, paced_first, paced_after, BeginSays, TurnSays, RelaxSays, fired_from, fired_refused};

use crate::steer::Gait;
use crate::{FireOptions, Fired, steer};
use answer::Refusal;
use evaluate::{Evaluated, Molecule, Setting};
use neighbor::State;
use verlet_step::Stepped;

// Between two iterations: the last step, the pace, the largest force component, and how many iterations there were. The atoms stand in what is lent.
#[derive(Clone, Copy)]
pub(crate) struct Stage {
    pub last: Stepped,
    pub gait: Gait,
    pub largest: f64,
    pub iteration: u32,
}

fn stage_of(last: Stepped, gait: Gait, largest: f64, iteration: u32) -> Stage
    ensures { result ≡ stage_of last gait largest iteration }
{
    Stage {
        last,
        gait,
        largest,
        iteration,
    }
}

// The evaluation's answer as a step's that was not stopped.
fn first_step(e: Evaluated) -> Stepped
    ensures { result ≡ stepped_from e false e.sum.energy }
{
    let done = e.done;
    let state = e.state;
    let sum = e.sum;
    Stepped {
        done,
        stopped: false,
        rebuilt: e.rebuilt,
        state,
        potential: sum.energy,
    }
}

// After the first evaluation: the atoms at rest; as they came where it was refused (7, 8).
fn rest(e: Evaluated, dt: f64, forces: &[f64], velocities: &mut [f64]) -> Stage
    ensures { paced result velocities.new ≡ paced_first dt forces.now velocities.old e e.done }
{
    let done = e.done;
    let last = first_step(e);
    let gait = steer::fresh(dt);
    if let Err(_) = done {
        return stage_of(last, gait, 0.0, 0);
    }
    virial::kernel::clear(velocities);
    let m = steer::largest(forces);
    stage_of(last, gait, m, 0)
}

// The first evaluation.
pub(crate) fn begin(
    setting: Setting,
    dt: f64,
    s: State,
    potential: f64,
    molecule: &Molecule,
    masses: &[f64],
    exclusions: &[u32],
    positions: &[f64],
    velocities: &mut [f64],
    pairs: &mut [u32],
    references: &mut [f64],
    starts: &mut [u32],
    items: &mut [u32],
    forces: &mut [f64],
) -> Stage
    ensures { BeginSays (motion_on setting dt s potential molecule.now masses.now exclusions.now positions.now velocities.old pairs.old references.old starts.old items.old forces.old) result velocities.new pairs.new references.new starts.new items.new forces.new }
{
    let e = evaluate::kernel::settle(
        setting, s, molecule, positions, exclusions, pairs, references, starts, items, forces,
    );
    rest(e, dt, forces, velocities)
}

// After a step's half kick, drift, evaluation and half kick.
fn pace(dt_max: f64, s: Stage, r: Stepped, forces: &[f64], velocities: &mut [f64]) -> Stage
    requires { (s.gait.since < 4294967295) × (s.iteration < 4294967295) }
    ensures { paced result velocities.new ≡ paced_after dt_max s forces.now velocities.old r r.done }
{
    let done = r.done;
    let gait = s.gait;
    let i = s.iteration + 1;
    if let Err(_) = done {
        return stage_of(r, gait, s.largest, i);
    }
    let next = steer::steer(dt_max, gait, forces, velocities);
    let m = steer::largest(forces);
    stage_of(r, next, m, i)
}

// An iteration.
fn turn(
    setting: Setting,
    dt_max: f64,
    s: Stage,
    molecule: &Molecule,
    masses: &[f64],
    exclusions: &[u32],
    positions: &mut [f64],
    velocities: &mut [f64],
    pairs: &mut [u32],
    references: &mut [f64],
    starts: &mut [u32],
    items: &mut [u32],
    forces: &mut [f64],
) -> Stage
    requires { (s.gait.since < 4294967295) × (s.iteration < 4294967295) }
    ensures { TurnSays dt_max s (motion_on setting s.gait.dt s.last.state s.last.potential molecule.now masses.now exclusions.now positions.old velocities.old pairs.old references.old starts.old items.old forces.old) result positions.new velocities.new pairs.new references.new starts.new items.new forces.new }
{
    let gait = s.gait;
    let last = s.last;
    let state = last.state;
    let r = verlet_step::kernel::advance(
        setting,
        gait.dt,
        state,
        last.potential,
        molecule,
        masses,
        exclusions,
        positions,
        velocities,
        pairs,
        references,
        starts,
        items,
        forces,
    );
    pace(dt_max, s, r, forces, velocities)
}

// Whether another iteration is due: nothing was refused, and the largest component passes the tolerance.
fn goes_on(tol: f64, s: Stage) -> bool
    ensures { result ≡ goes_on tol s.largest (seen s.last.done) }
{
    let last = s.last;
    let done = last.done;
    if let Err(_) = done {
        return false;
    }
    !(s.largest <= tol)
}

// Iterations up to the limit. `while`, since the stage itself counts them, and says after a turn whether the next is made.
pub(crate) fn relax(
    setting: Setting,
    o: FireOptions,
    s: Stage,
    molecule: &Molecule,
    masses: &[f64],
    exclusions: &[u32],
    positions: &mut [f64],
    velocities: &mut [f64],
    pairs: &mut [u32],
    references: &mut [f64],
    starts: &mut [u32],
    items: &mut [u32],
    forces: &mut [f64],
) -> Stage
    requires { (s.gait.since ≡ 0) × (s.iteration ≡ 0) }
    ensures { RelaxSays o s (motion_on setting s.gait.dt s.last.state s.last.potential molecule.now masses.now exclusions.now positions.old velocities.old pairs.old references.old starts.old items.old forces.old) result positions.new velocities.new pairs.new references.new starts.new items.new forces.new }
{
    let limit = o.max_iters;
    let tol = o.force_tol;
    let most = o.dt_max;
    let mut t = s;
    while t.iteration < limit {
        if !goes_on(tol, t) {
            return t;
        }
        let next = turn(
            setting, most, t, molecule, masses, exclusions, positions, velocities, pairs,
            references, starts, items, forces,
        );
        t = next;
    }
    t
}

fn converged(tol: f64, s: Stage) -> bool
    ensures { result ≡ converged_of tol s.largest (seen s.last.done) }
{
    let last = s.last;
    let done = last.done;
    if let Err(_) = done {
        return false;
    }
    s.largest <= tol
}

pub(crate) fn end(tol: f64, s: Stage) -> Fired
    ensures { result ≡ fired_from tol s }
{
    let last = s.last;
    let done = last.done;
    let state = last.state;
    Fired {
        done,
        iteration: s.iteration,
        stopped: last.stopped,
        converged: converged(tol, s),
        energy: last.potential,
        max_force: s.largest,
        state,
    }
}

// A refusal before the first evaluation.
pub(crate) fn refuse(s: State, why: Refusal) -> Fired
    ensures { result ≡ fired_refused s why }
{
    Fired {
        done: Err(why),
        iteration: 0,
        stopped: false,
        converged: false,
        energy: 0.0,
        max_force: 0.0,
        state: s,
    }
}
