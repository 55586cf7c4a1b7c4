// The calls of `exclusions`, 32 and 33. The table is told whatever became of it.
use replay_words::{Answer, Case, Tables};

pub(crate) fn exclude_case(mut case: Case, tables: &mut Tables, out: &mut Answer) -> Option<()> {
    let count = case.take_u32()?;
    let i = case.take_u32()?;
    let j = case.take_u32()?;
    case.take_u32s(&mut tables.table)?;
    case.end()?;
    out.put_answer(exclusions::exclude(count, i, j, tables.table.room()));
    out.put_table(tables.table.items());
    Some(())
}

pub(crate) fn set_exclusions_case(
    mut case: Case,
    tables: &mut Tables,
    out: &mut Answer,
) -> Option<()> {
    case.take_u32s(&mut tables.raw)?;
    case.take_u32s(&mut tables.table)?;
    case.end()?;
    out.put_answer(exclusions::set_exclusions(tables.raw.items(), tables.table.room()));
    out.put_table(tables.table.items());
    Some(())
}
