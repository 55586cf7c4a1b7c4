// The struct that an answer of `add_shells` is handed over as: a build's, with 13 among its refusals.
#![tactic(auto, unfolding(crate::specs::Flat::flat_built, crate::specs::FlatCounted::flat_counted))]

ghost use Rattle.std.specs.Prelude.{◌≡◌, Err};
ghost use Rattle.field_structs.specs.FlatCounted.{flat_counted};

use crate::give::done_and_value;
use crate::{FlatBuilt, FlatDone};
use frame::Built;
use shells::CountError;

impl From<CountError> for FlatDone {
    ghost from_gives = { λ why r. r ≡ (flat_counted (Err why)).done };

    fn from(why: CountError) -> FlatDone {
        match why {
            CountError::Refused(why) => why.into(),
            CountError::Full => FlatDone {
                number: 13,
                place: 0,
            },
        }
    }
}

impl From<Result<Built, CountError>> for FlatBuilt {
    ghost from_gives = { λ a r. r ≡ flat_counted a };

    fn from(a: Result<Built, CountError>) -> FlatBuilt {
        let (done, built) = done_and_value(a, FlatBuilt::default());
        FlatBuilt { done, ..built }
    }
}
