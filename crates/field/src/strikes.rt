// Atoms struck from a running melt, and put into it.
ghost use Rattle.field_structs.specs.Shown.{Shown};
ghost use Rattle.field_structs.specs.Strikes.{flat_entered, flat_struck};
ghost use Rattle.field_structs.specs.Taken.{state_of};
ghost use Rattle.strike.specs.Calls.{PutSays, StrikeSays, atoms, links};

use field_structs::{FlatEntered, FlatState, FlatStruck};
use strike::NewAtom;

// Strike the atoms whose mark is 1 (0 keeps one), with every bond, angle and exclusion that names one and the rows of lengths, ks and per_angle beside
// them; an exclusion that names no atom and rows past the last bond or angle go too. In place: survivors in their old order at the front, past the new
// counts everything as it came. The state has no pairs and no references then. Refusals 1, 2, 3 (a mark), 4 (a bond, then an angle), 5; nothing is moved then.
#[unsafe(no_mangle)]
pub extern "C" fn tyn_strike(
    marks: &[u32],
    s: FlatState,
    positions: &mut [f64],
    velocities: &mut [f64],
    masses: &mut [f64],
    charges: &mut [f64],
    species: &mut [u32],
    bonds: &mut [u32],
    lengths: &mut [f64],
    ks: &mut [f64],
    angles: &mut [u32],
    per_angle: &mut [f64],
    exclusions: &mut [u32],
) -> FlatStruck
    ensures { Shown flat_struck (λ a. StrikeSays marks.now (state_of s) (atoms positions.old velocities.old masses.old charges.old species.old) (links bonds.old lengths.old ks.old angles.old per_angle.old exclusions.old) a (atoms positions.new velocities.new masses.new charges.new species.new) (links bonds.new lengths.new ks.new angles.new per_angle.new exclusions.new)) result }
{
    strike::strike(
        marks,
        s.into(),
        positions,
        velocities,
        masses,
        charges,
        species,
        bonds,
        lengths,
        ks,
        angles,
        per_angle,
        exclusions,
    )
    .into()
}

// One atom more after the first count, with all its numbers. The state has no pairs and no references then. Refusals 1 (also where the room is full), 2, 3;
// nothing is stored then.
#[unsafe(no_mangle)]
pub extern "C" fn tyn_put(
    count: u32,
    new: NewAtom,
    s: FlatState,
    positions: &mut [f64],
    velocities: &mut [f64],
    masses: &mut [f64],
    charges: &mut [f64],
    species: &mut [u32],
) -> FlatEntered
    ensures { Shown flat_entered (λ a. PutSays count new (state_of s) (atoms positions.old velocities.old masses.old charges.old species.old) a (atoms positions.new velocities.new masses.new charges.new species.new)) result }
{
    strike::put(
        count,
        new,
        s.into(),
        positions,
        velocities,
        masses,
        charges,
        species,
    )
    .into()
}
