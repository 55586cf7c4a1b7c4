// How both calls end: refused with nothing changed, or cooled.
ghost use Rattle.std.specs.Prelude.{◌≡◌};
ghost use Rattle.answer.specs.Seen.{seen};
ghost use Rattle.verlet_step.specs.Calls.{cooled_of};
ghost use Rattle.verlet_step.specs.Steps.{unmoved_of};

use crate::{Pace, Stepped};
use answer::Refusal;
use neighbor::State;
use virial::Units;

// A refusal before anything is stored.
pub(crate) fn unmoved(s: State, potential: f64, why: Refusal) -> Stepped
    ensures { result ≡ unmoved_of s potential why }
{
    Stepped {
        done: Err(why),
        stopped: false,
        rebuilt: false,
        state: s,
        potential,
    }
}

// The thermostat, where the step came so far.
pub(crate) fn cool(r: Stepped, units: Units, pace: Pace, masses: &[f64], velocities: &mut [f64])
    ensures { velocities.new ≡ cooled_of pace.thermostat units pace.dt masses.now (seen r.done) velocities.old }
{
    let done = r.done;
    if let Err(_) = done {
        return;
    }
    let t = pace.thermostat;
    verlet::kernel::thermostat(t, units, pace.dt, masses, velocities);
}
