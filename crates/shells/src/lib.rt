// How many pairs sit at each distance, over any number of whole-number frames: the list of a frame is built, and each listed pair is added to the shell
// of its squared distance. specs/Shells.antt says what a call answers and leaves in what is lent, specs/Theorems.antt what a run of calls counts.
#![tactic(auto)]

use answer::Refusal;
use frame::{Built, Frame};

mod asked;
mod counting;

ghost use Rattle.std.specs.Prelude.{◌≡◌};
ghost use Rattle.frame.specs.Build.{given};
ghost use Rattle.shells.specs.declared.CountError.TheVariants.{Refused};
ghost use Rattle.shells.specs.Shells.{adding, AddShellsSays};

// Why a frame was not counted: there is no list; or 13, a total would pass 2^64 - 1: the list is there, the totals are as they came.
#[derive(Clone, Copy)]
pub enum CountError {
    Refused(Refusal),
    Full,
}

impl From<Refusal> for CountError {
    ghost from_gives = { λ why e. e ≡ Refused why };

    fn from(why: Refusal) -> CountError {
        CountError::Refused(why)
    }
}

// The frame's list is built, and each listed pair adds one to the total of its shell: its squared distance by the width, the last shell open upward.
// Refusals 1, 2, 3 (also a width of 0, or no totals), 5, 7, 8, 13.
pub fn add_shells(
    f: Frame,
    coordinates: &[u32],
    exclusions: &[u32],
    width: u64,
    totals: &mut [u64],
    pairs: &mut [u32],
    starts: &mut [u32],
    items: &mut [u32],
) -> Result<Built, CountError>
    ensures { AddShellsSays (adding (given f coordinates.now exclusions.now pairs.old starts.old items.old) width totals.old) result totals.new pairs.new starts.new items.new }
{
    if (width == 0) | (totals.len() == 0) {
        return Err(CountError::Refused(asked::refusal(f, coordinates, exclusions, items.len())));
    }
    let b = frame::build(f, coordinates, exclusions, pairs, starts, items)?;
    let to = 2 * (b.pairs as usize);
    if counting::add(f, coordinates, width, &pairs[..to], totals) {
        return Ok(b);
    }
    Err(CountError::Full)
}
