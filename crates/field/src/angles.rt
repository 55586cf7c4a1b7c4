// Cosine angles.
ghost use Rattle.field_structs.specs.Angles.{flat_angle_answer};
ghost use Rattle.field_structs.specs.Flat.{flat_summed};
ghost use Rattle.field_structs.specs.Shown.{Shown};
ghost use Rattle.field_structs.specs.Taken.{cell_of};
ghost use Rattle.potentials_angle.specs.Calls.{AnglesAllSays, UniformAnglesSays};

use field_structs::{FlatAngleAnswer, FlatCell, FlatSummed};
use potentials_angle::{Angle, AngleRows};

// Angle numbers, the same for each angle. Refusal 3.
#[unsafe(no_mangle)]
pub extern "C" fn tyn_uniform_angles(k: f64, rest: f64) -> FlatAngleAnswer
    ensures { Shown flat_angle_answer (UniformAnglesSays k rest) result }
{
    potentials_angle::uniform_angles(k, rest).into()
}

// Cosine angles, three atoms a row, the apex second: forces overwritten, from zero. An angle past the end of per_angle, which has k and rest cosine a row,
// takes angle's own numbers. Refusals 1, 2, 3, 4.
#[unsafe(no_mangle)]
pub extern "C" fn tyn_angles_all(
    angle: Angle,
    cell: FlatCell,
    angles: &[u32],
    per_angle: &[f64],
    positions: &[f64],
    forces: &mut [f64],
) -> FlatSummed
    ensures { Shown flat_summed (λ a. AnglesAllSays angle (cell_of cell) angles.now per_angle.now positions.now forces.old a forces.new) result }
{
    let rows = AngleRows {
        corners: angles,
        per_angle,
    };
    potentials_angle::angles_all(angle, cell.into(), &rows, positions, forces).into()
}
