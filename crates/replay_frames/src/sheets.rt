// The call of `sheet_written`, 42.
use crate::frames;
use replay_words::{Answer, Case, Tables};

pub(crate) fn write_case(mut case: Case, tables: &mut Tables, out: &mut Answer) -> Option<()> {
    let f = frames::take_frame(&mut case)?;
    case.take_u32s(&mut tables.coordinates)?;
    case.take_u32s(&mut tables.exclusions)?;
    case.take_bytes(&mut tables.sheet)?;
    case.end()?;
    out.put_answer(sheet_written::write(
        f,
        tables.coordinates.items(),
        tables.exclusions.items(),
        tables.sheet.room(),
    ));
    out.put_table(tables.sheet.items());
    Some(())
}
