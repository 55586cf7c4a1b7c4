// The calls of `neighbor`, 30, 31, 34 to 37, and 38 to 3a, which are the second question and 35, 36 with the remembered cell in State.
use crate::{answers, records};
use answer::Refusal;
use cell::Lattice;
use neighbor::State;
use replay_words::{Answer, Case, Tables};

pub(crate) fn new_case(mut case: Case, out: &mut Answer) -> Option<()> {
    let cutoff = case.take_float()?;
    let skin = case.take_float()?;
    case.end()?;
    if let Some(s) = out.put_head(neighbor::new(cutoff, skin)) {
        answers::put_state(out, s);
    }
    Some(())
}

pub(crate) fn search_radius_case(mut case: Case, out: &mut Answer) -> Option<()> {
    let s = records::take_state(&mut case)?;
    case.end()?;
    out.put_answer(neighbor::search_radius(s));
    Some(())
}

pub(crate) fn builds_since_case(mut case: Case, out: &mut Answer) -> Option<()> {
    let s = records::take_state(&mut case)?;
    let earlier = case.take_u32()?;
    case.end()?;
    out.put_done();
    out.put(neighbor::builds_since(s, earlier));
    Some(())
}

// The Rust's question, or the second one; `remembers` says whether the remembered cell stands in the line.
pub(crate) fn question_case<
    F: FnOnce(State, Option<Lattice>, &[f64], &[f64]) -> Result<bool, Refusal> + Drop,
>(question: F, remembers: bool, mut case: Case, tables: &mut Tables, out: &mut Answer) -> Option<()>
    requires { F.IsAlwaysCallable question }
{
    let s = records::take_state_and(remembers, &mut case)?;
    let cell = records::take_cell(&mut case)?;
    case.take_floats(&mut tables.positions)?;
    case.take_floats(&mut tables.references)?;
    case.end()?;
    out.put_answer(question(s, cell, tables.positions.items(), tables.references.items()));
    Some(())
}

// A build, or where `asks` a question and then a build. The answer is the refusal or 0, of a question whether the list was built anew, and the state, also with
// a refusal; then the rooms.
pub(crate) fn build_case(
    asks: bool,
    remembers: bool,
    mut case: Case,
    tables: &mut Tables,
    out: &mut Answer,
) -> Option<()> {
    let s = records::take_state_and(remembers, &mut case)?;
    let cell = records::take_cell(&mut case)?;
    case.take_floats(&mut tables.positions)?;
    case.take_u32s(&mut tables.exclusions)?;
    case.take_u32s(&mut tables.pairs)?;
    case.take_floats(&mut tables.references)?;
    case.take_u32s(&mut tables.starts)?;
    case.take_u32s(&mut tables.items)?;
    case.end()?;
    let updated = if asks {
        neighbor::maybe_build(
            s,
            cell,
            tables.positions.items(),
            tables.exclusions.items(),
            tables.pairs.room(),
            tables.references.room(),
            tables.starts.room(),
            tables.items.room(),
        )
    } else {
        neighbor::build(
            s,
            cell,
            tables.positions.items(),
            tables.exclusions.items(),
            tables.pairs.room(),
            tables.references.room(),
            tables.starts.room(),
            tables.items.room(),
        )
    };
    out.put_head(updated.done);
    if asks {
        out.put(updated.rebuilt);
    }
    answers::put_state_and(remembers, out, updated.state);
    out.put_table(tables.pairs.items());
    out.put_table(tables.references.items());
    out.put_table(tables.starts.items());
    out.put_table(tables.items.items());
    Some(())
}
