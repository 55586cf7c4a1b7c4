// The structs that the answers of sheets of either form are handed over as.
#![tactic(auto, unfolding(crate::specs::FlatForms::flat_formed, crate::specs::FlatForms::flat_moved))]

ghost use Rattle.std.specs.Prelude.{◌≡◌, Err};
ghost use Rattle.field_structs.specs.FlatForms.{flat_formed, flat_moved};

use crate::give::done_and_value;
use crate::{FlatDone, FlatFormed, FlatWhole};
use answer::Refusal;
use sheet_either::Formed;
use sheet_moved::MoveError;

impl From<Result<Formed, Refusal>> for FlatFormed {
    ghost from_gives = { λ a r. r ≡ flat_formed a };

    fn from(a: Result<Formed, Refusal>) -> FlatFormed {
        match a {
            Ok(f) => FlatFormed {
                done: FlatDone::default(),
                job: f.job.into(),
                form: f.form,
                rule: f.rule,
            },
            Err(why) => FlatFormed {
                done: why.into(),
                ..FlatFormed::default()
            },
        }
    }
}

// A move's refusal, 12 among them.
impl From<MoveError> for FlatDone {
    ghost from_gives = { λ why r. r ≡ (flat_moved (Err why)).done };

    fn from(why: MoveError) -> FlatDone {
        match why {
            MoveError::Refused(why) => why.into(),
            MoveError::NoWayBack { place } => FlatDone {
                number: 12,
                place: place as u64,
            },
        }
    }
}

impl From<Result<u64, MoveError>> for FlatWhole {
    ghost from_gives = { λ a r. r ≡ flat_moved a };

    fn from(a: Result<u64, MoveError>) -> FlatWhole {
        let (done, value) = done_and_value(a, 0);
        FlatWhole { done, value }
    }
}
