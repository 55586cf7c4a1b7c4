// The calls of `frame`, 40 and 41.
use frame::{Built, Frame, Side, Spot};
use replay_words::{Answer, Case, Tables};

// Three edges, three flags, the radius.
pub(crate) fn take_frame(case: &mut Case) -> Option<Frame> {
    let ex = case.take_u32()?;
    let ey = case.take_u32()?;
    let ez = case.take_u32()?;
    let px = case.take_bool()?;
    let py = case.take_bool()?;
    let pz = case.take_bool()?;
    let radius = case.take_u32()?;
    Some(Frame {
        x: Side {
            edge: ex,
            round: px,
        },
        y: Side {
            edge: ey,
            round: py,
        },
        z: Side {
            edge: ez,
            round: pz,
        },
        radius,
    })
}

fn take_spot(case: &mut Case) -> Option<Spot> {
    let x = case.take_u32()?;
    let y = case.take_u32()?;
    let z = case.take_u32()?;
    Some(Spot { x, y, z })
}

pub(crate) fn put_built(out: &mut Answer, built: Built) {
    out.put_all(&[built.pairs, built.checks]);
    out.put(built.fallback);
}

pub(crate) fn build_case(mut case: Case, tables: &mut Tables, out: &mut Answer) -> Option<()> {
    let f = take_frame(&mut case)?;
    case.take_u32s(&mut tables.coordinates)?;
    case.take_u32s(&mut tables.exclusions)?;
    case.take_u32s(&mut tables.pairs)?;
    case.take_u32s(&mut tables.starts)?;
    case.take_u32s(&mut tables.items)?;
    case.end()?;
    let answer = frame::build(
        f,
        tables.coordinates.items(),
        tables.exclusions.items(),
        tables.pairs.room(),
        tables.starts.room(),
        tables.items.room(),
    );
    if let Some(built) = out.put_head(answer) {
        put_built(out, built);
    }
    out.put_table(tables.pairs.items());
    out.put_table(tables.starts.items());
    out.put_table(tables.items.items());
    Some(())
}

pub(crate) fn squared_distance_case(mut case: Case, out: &mut Answer) -> Option<()> {
    let f = take_frame(&mut case)?;
    let a = take_spot(&mut case)?;
    let b = take_spot(&mut case)?;
    case.end()?;
    out.put_answer(frame::squared_distance(f, a, b));
    Some(())
}
