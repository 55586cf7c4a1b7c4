// The structs of angles.
#![tactic(auto, unfolding(crate::specs::Angles::flat_angle_answer, crate::specs::Taken::angle_term_of))]

ghost use Rattle.std.specs.Prelude.{◌≡◌};
ghost use Rattle.field_structs.specs.Angles.{flat_angle_answer};
ghost use Rattle.field_structs.specs.Taken.{angle_term_of};

use crate::give::done_and_value;
use crate::{FlatAngleAnswer, FlatAngleTerm};
use answer::Refusal;
use potentials_angle::Angle;

impl From<Result<Angle, Refusal>> for FlatAngleAnswer {
    ghost from_gives = { λ a r. r ≡ flat_angle_answer a };

    fn from(a: Result<Angle, Refusal>) -> FlatAngleAnswer {
        let (done, angle) = done_and_value(a, Angle { k: 0.0, rest: 0.0 });
        FlatAngleAnswer { done, angle }
    }
}

impl From<FlatAngleTerm> for Option<Angle> {
    ghost from_gives = { λ term r. r ≡ angle_term_of term };

    fn from(term: FlatAngleTerm) -> Option<Angle> {
        if term.present != 0 {
            Some(term.angle)
        } else {
            None
        }
    }
}
