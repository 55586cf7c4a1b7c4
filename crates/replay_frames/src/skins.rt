// The call of `skin`, 46.
use crate::frames;
use replay_words::{Answer, Case, Tables};

// A frame whose radius is the cutoff, the skin, old and new coordinates.
pub(crate) fn within_skin_case(
    mut case: Case,
    tables: &mut Tables,
    out: &mut Answer,
) -> Option<()> {
    let f = frames::take_frame(&mut case)?;
    let skin = case.take_u32()?;
    case.take_u32s(&mut tables.coordinates)?;
    case.take_u32s(&mut tables.moved)?;
    case.end()?;
    out.put_answer(skin::within_skin(f, skin, tables.coordinates.items(), tables.moved.items()));
    Some(())
}
