// The calls of `virial`, 20 to 27.
use crate::{answers, records};
use replay_words::{Answer, Case, Tables};

fn take_row(case: &mut Case) -> Option<[f64; 3]> {
    let x = case.take_float()?;
    let y = case.take_float()?;
    let z = case.take_float()?;
    Some([x, y, z])
}

fn take_rows(case: &mut Case) -> Option<[[f64; 3]; 3]> {
    let x = take_row(case)?;
    let y = take_row(case)?;
    let z = take_row(case)?;
    Some([x, y, z])
}

pub(crate) fn merge_case(mut case: Case, tables: &mut Tables, out: &mut Answer) -> Option<()> {
    let sum = records::take_sum(&mut case)?;
    let other = records::take_sum(&mut case)?;
    case.take_floats(&mut tables.added)?;
    case.take_floats(&mut tables.forces)?;
    case.end()?;
    let merged = virial::merge(sum, tables.forces.room(), other, tables.added.items());
    answers::put_summed_forces(out, merged, tables.forces.items());
    Some(())
}

pub(crate) fn add_pair_force_case(
    mut case: Case,
    tables: &mut Tables,
    out: &mut Answer,
) -> Option<()> {
    let sum = records::take_sum(&mut case)?;
    let i = case.take_u32()?;
    let j = case.take_u32()?;
    let d = records::take_vec3(&mut case)?;
    let f = records::take_vec3(&mut case)?;
    case.take_floats(&mut tables.forces)?;
    case.end()?;
    let added = virial::add_pair_force(sum, tables.forces.room(), i, j, d, f);
    answers::put_summed_forces(out, added, tables.forces.items());
    Some(())
}

pub(crate) fn virial_from_pair_case(mut case: Case, out: &mut Answer) -> Option<()> {
    let rows = take_rows(&mut case)?;
    let d = records::take_vec3(&mut case)?;
    let f = records::take_vec3(&mut case)?;
    case.end()?;
    if let Some(virial) = out.put_head(virial::virial_from_pair(rows, d, f)) {
        answers::put_rows(out, virial);
    }
    Some(())
}

pub(crate) fn scalar_virial_case(mut case: Case, out: &mut Answer) -> Option<()> {
    let rows = take_rows(&mut case)?;
    case.end()?;
    out.put_answer(virial::scalar_virial(rows));
    Some(())
}

pub(crate) fn pressure_case(mut case: Case, out: &mut Answer) -> Option<()> {
    let kinetic = case.take_float()?;
    let scalar = case.take_float()?;
    let volume = case.take_float()?;
    case.end()?;
    out.put_answer(virial::pressure(kinetic, scalar, volume));
    Some(())
}

pub(crate) fn pressure_tensor_case(
    mut case: Case,
    tables: &mut Tables,
    out: &mut Answer,
) -> Option<()> {
    let units = records::take_units(&mut case)?;
    let volume = case.take_float()?;
    let rows = take_rows(&mut case)?;
    case.take_floats(&mut tables.velocities)?;
    case.take_floats(&mut tables.masses)?;
    case.end()?;
    let answer = virial::pressure_tensor(
        units,
        volume,
        rows,
        tables.velocities.items(),
        tables.masses.items(),
    );
    if let Some(tensor) = out.put_head(answer) {
        answers::put_rows(out, tensor);
    }
    Some(())
}

pub(crate) fn to_gpa_case(mut case: Case, out: &mut Answer) -> Option<()> {
    let units = records::take_units(&mut case)?;
    let pressure = case.take_float()?;
    case.end()?;
    out.put_answer(virial::to_gpa(units, pressure));
    Some(())
}

pub(crate) fn zeros_case(mut case: Case, tables: &mut Tables, out: &mut Answer) -> Option<()> {
    case.take_floats(&mut tables.forces)?;
    case.end()?;
    let zeros = virial::zeros(tables.forces.room());
    answers::put_summed_forces(out, zeros, tables.forces.items());
    Some(())
}
