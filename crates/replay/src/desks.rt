// Two species tables: 58 and 59, the calls 50 and 53 with a mask, and 5a, `species_row`.
use crate::forces;
use potentials_pair::SpeciesTables;
use replay_melts::masks;
use replay_melts::masks::Parts;
use replay_words::{Answer, Case, Tables};

// The mask of 58 and 59: the own tables and the rule alone. Another is no case.
fn take_mask(case: &mut Case) -> Option<Parts> {
    let parts = masks::take_mask(case)?;
    if parts.angles || parts.cell {
        return None;
    }
    Some(parts)
}

pub(crate) fn lj_pairs_case(mut case: Case, tables: &mut Tables, out: &mut Answer) -> Option<()> {
    let parts = take_mask(&mut case)?;
    forces::lj_pairs(parts, case, tables, out)
}

pub(crate) fn lj_all_case(mut case: Case, tables: &mut Tables, out: &mut Answer) -> Option<()> {
    let parts = take_mask(&mut case)?;
    forces::lj_all(parts, case, tables, out)
}

// 0 where no table has the species, 1 where the own one has it, 2 the house's.
fn table_of(own: &[f64], row: &[f64]) -> u64 {
    if !own.is_empty() {
        1
    } else if !row.is_empty() {
        2
    } else {
        0
    }
}

// Which table has the species, and the two floats of its row, zeros for none.
fn put_row(out: &mut Answer, both: &SpeciesTables, z: u32) {
    let own_alone = SpeciesTables {
        ids: &[],
        params: &[],
        ..*both
    };
    let own = potentials_calls::species_row(&own_alone, z);
    let row = potentials_calls::species_row(both, z);
    out.put(table_of(own, row));
    match row {
        [epsilon, sigma, ..] => out.put_all(&[*epsilon, *sigma]),
        _ => out.put_all(&[0.0, 0.0]),
    }
}

pub(crate) fn species_row_case(
    mut case: Case,
    tables: &mut Tables,
    out: &mut Answer,
) -> Option<()> {
    case.take_u32s(&mut tables.own_ids)?;
    case.take_floats(&mut tables.own_params)?;
    case.take_u32s(&mut tables.ids)?;
    case.take_floats(&mut tables.params)?;
    let z = case.take_u32()?;
    case.end()?;
    let both = SpeciesTables {
        own_ids: tables.own_ids.items(),
        own_params: tables.own_params.items(),
        ids: tables.ids.items(),
        params: tables.params.items(),
    };
    let asked = potentials_calls::species_row_asked(&both, z);
    if out.put_head(asked).is_some() {
        put_row(out, &both, z);
    }
    Some(())
}
