// The end of a step: half a kick by the new forces, and the new potential. Total, no public call: a crate of its own, so that wrong programs of it are tried
// without the step around them.
#![tactic(auto)]

ghost use Rattle.std.specs.Prelude.{◌≡◌};
ghost use Rattle.verlet_kick.specs.Kick.{second_kick, second_kick_after};

use answer::Refusal;
use verlet::moves;
use virial::Units;

// Whether the step was stopped after its drift, and its potential.
#[derive(Drop)]
pub struct Kick {
    pub stopped: bool,
    pub potential: f64,
}

// `energy` is the evaluation's; where that refused (7, 8) nothing is kicked, and the old potential stays.
pub fn second(
    done: Result<(), Refusal>,
    energy: f64,
    potential: f64,
    units: Units,
    dt: f64,
    forces: &[f64],
    masses: &[f64],
    velocities: &mut [f64],
) -> Kick
    ensures { second_kick result velocities.new ≡ second_kick_after potential energy units dt forces.now masses.now velocities.old done }
{
    if let Err(_) = done {
        return Kick {
            stopped: true,
            potential: potential,
        };
    }
    moves::kick(units, dt, forces, masses, velocities);
    Kick {
        stopped: false,
        potential: energy,
    }
}
