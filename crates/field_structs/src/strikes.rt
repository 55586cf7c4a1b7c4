// The structs of striking.
#![tactic(auto, unfolding(crate::specs::Strikes::flat_struck, crate::specs::Strikes::flat_entered))]

ghost use Rattle.std.specs.Prelude.{◌≡◌};
ghost use Rattle.field_structs.specs.Strikes.{flat_struck, flat_entered};

use crate::{FlatEntered, FlatStruck};
use strike::{Entered, Struck};

impl From<Struck> for FlatStruck {
    ghost from_gives = { λ a r. r ≡ flat_struck a };

    fn from(a: Struck) -> FlatStruck {
        FlatStruck {
            done: a.done.into(),
            left: a.left,
            state: a.state.into(),
        }
    }
}

impl From<Entered> for FlatEntered {
    ghost from_gives = { λ a r. r ≡ flat_entered a };

    fn from(a: Entered) -> FlatEntered {
        FlatEntered {
            done: a.done.into(),
            count: a.count,
            state: a.state.into(),
        }
    }
}
