// The call of `potentials_angle`, 56.
use potentials_angle::{Angle, AngleRows};
use replay_lists::{answers, records};
use replay_words::{Answer, Case, Tables};

pub(crate) fn angles_all_case(mut case: Case, tables: &mut Tables, out: &mut Answer) -> Option<()> {
    let k = case.take_float()?;
    let rest = case.take_float()?;
    let cell = records::take_cell(&mut case)?;
    case.take_u32s(&mut tables.angles)?;
    case.take_floats(&mut tables.per_angle)?;
    case.take_floats(&mut tables.positions)?;
    case.take_floats(&mut tables.forces)?;
    case.end()?;
    let summed = potentials_angle::angles_all(
        Angle { k, rest },
        cell,
        &AngleRows {
            corners: tables.angles.items(),
            per_angle: tables.per_angle.items(),
        },
        tables.positions.items(),
        tables.forces.room(),
    );
    answers::put_summed_forces(out, summed, tables.forces.items());
    Some(())
}
