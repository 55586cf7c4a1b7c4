// The call of `clumps_label`, 45.
use replay_words::{Answer, Case, Tables};

pub(crate) fn label_case(mut case: Case, tables: &mut Tables, out: &mut Answer) -> Option<()> {
    let count = case.take_u32()?;
    case.take_u32s(&mut tables.pairs)?;
    case.take_u32s(&mut tables.labels)?;
    case.end()?;
    out.put_answer(clumps_label::label(count, tables.pairs.items(), tables.labels.room()));
    out.put_table(tables.labels.items());
    Some(())
}
