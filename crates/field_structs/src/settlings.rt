// The structs of settling.
#![tactic(auto, unfolding(crate::specs::Settlings::fire_options_of, crate::specs::Settlings::flat_fired))]

ghost use Rattle.std.specs.Prelude.{◌≡◌};
ghost use Rattle.field_structs.specs.Settlings.{fire_options_of, flat_fired};

use crate::{FlatFireOptions, FlatFired};
use fire::{FireOptions, Fired};

impl From<FlatFireOptions> for FireOptions {
    ghost from_gives = { λ o r. r ≡ fire_options_of o };

    fn from(o: FlatFireOptions) -> FireOptions {
        FireOptions {
            max_iters: o.max_iters,
            force_tol: o.force_tol,
            dt: o.dt,
            dt_max: o.dt_max,
        }
    }
}

impl From<Fired> for FlatFired {
    ghost from_gives = { λ a r. r ≡ flat_fired a };

    fn from(a: Fired) -> FlatFired {
        FlatFired {
            done: a.done.into(),
            iteration: a.iteration,
            stopped: a.stopped.into(),
            converged: a.converged.into(),
            energy: a.energy,
            max_force: a.max_force,
            state: a.state.into(),
        }
    }
}
