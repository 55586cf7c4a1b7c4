// The calls of `strike`, 6a and 6b.
use neighbor::State;
use replay_lists::{answers, records};
use replay_words::{Answer, Case, Tables};
use strike::{Entered, Left, NewAtom, Struck};

// The atoms' stores, which both calls have.
fn take_atoms(case: &mut Case, tables: &mut Tables) -> Option<()> {
    case.take_floats(&mut tables.positions)?;
    case.take_floats(&mut tables.velocities)?;
    case.take_floats(&mut tables.masses)?;
    case.take_floats(&mut tables.charges)?;
    case.take_u32s(&mut tables.species)
}

fn put_atoms(out: &mut Answer, tables: &Tables) {
    out.put_table(tables.positions.items());
    out.put_table(tables.velocities.items());
    out.put_table(tables.masses.items());
    out.put_table(tables.charges.items());
    out.put_table(tables.species.items());
}

// What names them.
fn take_links(case: &mut Case, tables: &mut Tables) -> Option<()> {
    case.take_u32s(&mut tables.bonds)?;
    case.take_floats(&mut tables.lengths)?;
    case.take_floats(&mut tables.ks)?;
    case.take_u32s(&mut tables.angles)?;
    case.take_floats(&mut tables.per_angle)?;
    case.take_u32s(&mut tables.exclusions)
}

fn put_links(out: &mut Answer, tables: &Tables) {
    out.put_table(tables.bonds.items());
    out.put_table(tables.lengths.items());
    out.put_table(tables.ks.items());
    out.put_table(tables.angles.items());
    out.put_table(tables.per_angle.items());
    out.put_table(tables.exclusions.items());
}

fn put_left(out: &mut Answer, l: Left) {
    out.put_all(&[
        l.atoms,
        l.bonds,
        l.lengths,
        l.ks,
        l.angles,
        l.per_angle,
        l.exclusions,
    ]);
}

fn put_struck(out: &mut Answer, r: Struck) {
    let done = out.put_head(r.done);
    answers::put_state(out, r.state);
    if done.is_some() {
        put_left(out, r.left);
    }
}

fn put_entered(out: &mut Answer, r: Entered) {
    let done = out.put_head(r.done);
    answers::put_state(out, r.state);
    if done.is_some() {
        out.put(r.count);
    }
}

pub(crate) fn strike_case(mut case: Case, tables: &mut Tables, out: &mut Answer) -> Option<()> {
    case.take_u32s(&mut tables.marks)?;
    let s = records::take_state(&mut case)?;
    take_atoms(&mut case, tables)?;
    take_links(&mut case, tables)?;
    case.end()?;
    let r = strike::strike(
        tables.marks.items(),
        s,
        tables.positions.room(),
        tables.velocities.room(),
        tables.masses.room(),
        tables.charges.room(),
        tables.species.room(),
        tables.bonds.room(),
        tables.lengths.room(),
        tables.ks.room(),
        tables.angles.room(),
        tables.per_angle.room(),
        tables.exclusions.room(),
    );
    put_struck(out, r);
    put_atoms(out, tables);
    put_links(out, tables);
    Some(())
}

fn take_new_atom(case: &mut Case) -> Option<NewAtom> {
    let position = records::take_vec3(case)?;
    let velocity = records::take_vec3(case)?;
    let mass = case.take_float()?;
    let charge = case.take_float()?;
    let species = case.take_u32()?;
    Some(NewAtom {
        position,
        velocity,
        mass,
        charge,
        species,
    })
}

pub(crate) fn put_case(mut case: Case, tables: &mut Tables, out: &mut Answer) -> Option<()> {
    let count = case.take_u32()?;
    let new = take_new_atom(&mut case)?;
    let s = records::take_state(&mut case)?;
    take_atoms(&mut case, tables)?;
    case.end()?;
    let r = strike::put(
        count,
        new,
        s,
        tables.positions.room(),
        tables.velocities.room(),
        tables.masses.room(),
        tables.charges.room(),
        tables.species.room(),
    );
    put_entered(out, r);
    put_atoms(out, tables);
    Some(())
}
