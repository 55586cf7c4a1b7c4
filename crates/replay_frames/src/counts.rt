// The call of `shells`, 44.
use crate::frames;
use frame::Built;
use replay_words::{Answer, Case, Tables};
use shells::CountError;

// 13 where a total finds no room: the one refusal that is not of all calls.
fn put_counted(out: &mut Answer, answer: Result<Built, CountError>) {
    match answer {
        Ok(built) => {
            out.put_done();
            frames::put_built(out, built);
        }
        Err(CountError::Refused(why)) => out.put_refusal(why),
        Err(CountError::Full) => out.put_all(&[13u64, 0]),
    }
}

pub(crate) fn add_shells_case(mut case: Case, tables: &mut Tables, out: &mut Answer) -> Option<()> {
    let f = frames::take_frame(&mut case)?;
    let width = case.take_word()?;
    case.take_u32s(&mut tables.coordinates)?;
    case.take_u32s(&mut tables.exclusions)?;
    case.take_words(&mut tables.totals)?;
    case.take_u32s(&mut tables.pairs)?;
    case.take_u32s(&mut tables.starts)?;
    case.take_u32s(&mut tables.items)?;
    case.end()?;
    let answer = shells::add_shells(
        f,
        tables.coordinates.items(),
        tables.exclusions.items(),
        width,
        tables.totals.room(),
        tables.pairs.room(),
        tables.starts.room(),
        tables.items.room(),
    );
    put_counted(out, answer);
    out.put_table(tables.totals.items());
    out.put_table(tables.pairs.items());
    out.put_table(tables.starts.items());
    out.put_table(tables.items.items());
    Some(())
}
