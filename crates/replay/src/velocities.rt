// The calls of `verlet`, 60 to 62.
use replay_lists::records;
use replay_words::{Answer, Case, Tables};

pub(crate) fn kinetic_energy_case(
    mut case: Case,
    tables: &mut Tables,
    out: &mut Answer,
) -> Option<()> {
    let units = records::take_units(&mut case)?;
    case.take_floats(&mut tables.velocities)?;
    case.take_floats(&mut tables.masses)?;
    case.end()?;
    out.put_answer(verlet::kinetic_energy(units, tables.velocities.items(), tables.masses.items()));
    Some(())
}

pub(crate) fn temperature_case(
    mut case: Case,
    tables: &mut Tables,
    out: &mut Answer,
) -> Option<()> {
    let units = records::take_units(&mut case)?;
    let dof = case.take_float()?;
    case.take_floats(&mut tables.velocities)?;
    case.take_floats(&mut tables.masses)?;
    case.end()?;
    out.put_answer(verlet::temperature(
        units,
        dof,
        tables.velocities.items(),
        tables.masses.items(),
    ));
    Some(())
}

pub(crate) fn berendsen_case(mut case: Case, tables: &mut Tables, out: &mut Answer) -> Option<()> {
    let units = records::take_units(&mut case)?;
    let dt = case.take_float()?;
    let target_k = case.take_float()?;
    let tau_fs = case.take_float()?;
    case.take_floats(&mut tables.masses)?;
    case.take_floats(&mut tables.velocities)?;
    case.end()?;
    out.put_head(verlet::berendsen(
        units,
        dt,
        target_k,
        tau_fs,
        tables.masses.items(),
        tables.velocities.room(),
    ));
    out.put_table(tables.velocities.items());
    Some(())
}
