// The calls of `potentials`, 50 to 54.
use potentials::{Bond, BondRows};
use potentials_pair::SpeciesTables;
use replay_lists::answers;
use replay_lists::records::{take_cell, take_units};
use replay_melts::masks::Parts;
use replay_melts::{masks, records};
use replay_words::{Answer, Case, Tables};

// 50, and 58 with its parts.
pub(crate) fn lj_pairs(
    parts: Parts,
    mut case: Case,
    tables: &mut Tables,
    out: &mut Answer,
) -> Option<()> {
    let lj = records::take_lj(parts.rule, &mut case)?;
    let cell = take_cell(&mut case)?;
    masks::take_u32s_if(parts.own, &mut case, &mut tables.own_ids)?;
    masks::take_floats_if(parts.own, &mut case, &mut tables.own_params)?;
    case.take_u32s(&mut tables.ids)?;
    case.take_floats(&mut tables.params)?;
    case.take_u32s(&mut tables.species)?;
    case.take_floats(&mut tables.positions)?;
    case.take_u32s(&mut tables.pairs)?;
    case.take_floats(&mut tables.forces)?;
    case.end()?;
    let summed = potentials_calls::lj_pairs(
        lj,
        cell,
        &SpeciesTables {
            own_ids: tables.own_ids.items(),
            own_params: tables.own_params.items(),
            ids: tables.ids.items(),
            params: tables.params.items(),
        },
        tables.species.items(),
        tables.positions.items(),
        tables.pairs.items(),
        tables.forces.room(),
    );
    answers::put_summed_forces(out, summed, tables.forces.items());
    Some(())
}

// 53, and 59 with its parts.
pub(crate) fn lj_all(
    parts: Parts,
    mut case: Case,
    tables: &mut Tables,
    out: &mut Answer,
) -> Option<()> {
    let lj = records::take_lj(parts.rule, &mut case)?;
    let cell = take_cell(&mut case)?;
    masks::take_u32s_if(parts.own, &mut case, &mut tables.own_ids)?;
    masks::take_floats_if(parts.own, &mut case, &mut tables.own_params)?;
    case.take_u32s(&mut tables.ids)?;
    case.take_floats(&mut tables.params)?;
    case.take_u32s(&mut tables.species)?;
    case.take_floats(&mut tables.positions)?;
    case.take_floats(&mut tables.forces)?;
    case.end()?;
    let summed = potentials_calls::lj_all(
        lj,
        cell,
        &SpeciesTables {
            own_ids: tables.own_ids.items(),
            own_params: tables.own_params.items(),
            ids: tables.ids.items(),
            params: tables.params.items(),
        },
        tables.species.items(),
        tables.positions.items(),
        tables.forces.room(),
    );
    answers::put_summed_forces(out, summed, tables.forces.items());
    Some(())
}

pub(crate) fn lj_pairs_case(case: Case, tables: &mut Tables, out: &mut Answer) -> Option<()> {
    lj_pairs(Parts::default(), case, tables, out)
}

pub(crate) fn lj_all_case(case: Case, tables: &mut Tables, out: &mut Answer) -> Option<()> {
    lj_all(Parts::default(), case, tables, out)
}

pub(crate) fn coulomb_pairs_case(
    mut case: Case,
    tables: &mut Tables,
    out: &mut Answer,
) -> Option<()> {
    let units = take_units(&mut case)?;
    let cutoff = case.take_float()?;
    let cell = take_cell(&mut case)?;
    case.take_floats(&mut tables.charges)?;
    case.take_floats(&mut tables.positions)?;
    case.take_u32s(&mut tables.pairs)?;
    case.take_floats(&mut tables.forces)?;
    case.end()?;
    let summed = potentials_calls::coulomb_pairs(
        units,
        cutoff,
        cell,
        tables.charges.items(),
        tables.positions.items(),
        tables.pairs.items(),
        tables.forces.room(),
    );
    answers::put_summed_forces(out, summed, tables.forces.items());
    Some(())
}

pub(crate) fn coulomb_all_case(
    mut case: Case,
    tables: &mut Tables,
    out: &mut Answer,
) -> Option<()> {
    let units = take_units(&mut case)?;
    let cutoff = case.take_float()?;
    let cell = take_cell(&mut case)?;
    case.take_floats(&mut tables.charges)?;
    case.take_floats(&mut tables.positions)?;
    case.take_floats(&mut tables.forces)?;
    case.end()?;
    let summed = potentials_calls::coulomb_all(
        units,
        cutoff,
        cell,
        tables.charges.items(),
        tables.positions.items(),
        tables.forces.room(),
    );
    answers::put_summed_forces(out, summed, tables.forces.items());
    Some(())
}

pub(crate) fn bonds_all_case(mut case: Case, tables: &mut Tables, out: &mut Answer) -> Option<()> {
    let k = case.take_float()?;
    let r0 = case.take_float()?;
    let cell = take_cell(&mut case)?;
    case.take_u32s(&mut tables.bonds)?;
    case.take_floats(&mut tables.lengths)?;
    case.take_floats(&mut tables.ks)?;
    case.take_floats(&mut tables.positions)?;
    case.take_floats(&mut tables.forces)?;
    case.end()?;
    let summed = potentials_calls::bonds_all(
        Bond { k, r0 },
        cell,
        &BondRows {
            ends: tables.bonds.items(),
            lengths: tables.lengths.items(),
            ks: tables.ks.items(),
        },
        tables.positions.items(),
        tables.forces.room(),
    );
    answers::put_summed_forces(out, summed, tables.forces.items());
    Some(())
}
