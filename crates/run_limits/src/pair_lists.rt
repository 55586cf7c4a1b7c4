// The same limits of the pair list of a float frame. Places are whole, edges and radius powers of two, so that no operation rounds.
// A line a build: number, place, rebuilt, the state's counts, a digest of each lent memory; a line a question: number, place and the answer.
use crate::frames::MARK;
use crate::{floats, frames, show};
use cell::Lattice;
use neighbor::{State, Updated};
use replay_words::filled;

fn put_state(s: State) {
    show::put(u64::from(s.pairs));
    show::put(u64::from(s.references));
    show::put(u64::from(s.checks));
    show::put_flag(s.fallback);
    show::put(u64::from(s.builds));
}

fn put_updated(r: Updated) {
    show::put_head(r.done);
    show::put_flag(r.rebuilt);
    put_state(r.state);
}

fn put_rooms(pairs: &[u32], refs: &[f64], starts: &[u32], items: &[u32]) {
    show::put(frames::digest(pairs));
    show::put(floats::digest(refs));
    show::put(frames::digest(starts));
    show::end(frames::digest(items));
}

// A list with nothing in it yet.
pub(crate) fn list(cutoff: f64, skin: f64) -> State {
    State {
        cutoff,
        skin,
        pairs: 0,
        references: 0,
        checks: 0,
        fallback: false,
        builds: 0,
        built_in: None,
    }
}

// A build, and the state after it.
fn build(
    s: State,
    cell: Option<Lattice>,
    xs: &[f64],
    pairs: &mut [u32],
    refs: &mut [f64],
    starts: &mut [u32],
    items: &mut [u32],
) -> State {
    let r = neighbor::build(s, cell, xs, &[], pairs, refs, starts, items);
    let state = r.state;
    put_updated(r);
    put_rooms(pairs, refs, starts, items);
    state
}

fn ask(s: State, cell: Option<Lattice>, xs: &[f64], refs: &[f64]) {
    if let Some(needed) = show::put_head(neighbor::needs_rebuild(s, cell, xs, refs)) {
        show::put_flag(needed);
    }
    show::end_line();
}

fn boxed(x: f64, y: f64, z: f64) -> Option<Lattice> {
    Some(cell::kernel::orthorhombic(x, y, z))
}

fn cube() -> Option<Lattice> {
    boxed(256.0, 256.0, 256.0)
}

fn build_cube(s: State, xs: &[f64], refs: &mut [f64], starts: &mut [u32]) -> State {
    let mut pairs: [u32; 200000] = filled(MARK);
    let mut items: [u32; 16390] = filled(MARK);
    build(s, cube(), xs, &mut pairs, refs, starts, &mut items)
}

// A build with just the starts that it needs, and what it leaves is asked about.
fn fill(s: State, xs: &[f64], refs: &mut [f64]) -> State {
    let mut starts: [u32; 32769] = filled(MARK);
    let after = build_cube(s, xs, refs, &mut starts);
    ask(after, cube(), xs, refs);
    after
}

// 16,384 atoms in 32,768 cells; with one start fewer.
fn most(s: State, refs: &mut [f64]) -> State {
    let mut xs: [f64; 49152] = filled(0.0);
    let mut fewer: [u32; 32768] = filled(MARK);
    floats::spread(&mut xs);
    let after = fill(s, &xs, refs);
    build_cube(after, &xs, refs, &mut fewer);
    after
}

// One atom more.
fn over(s: State, refs: &mut [f64]) {
    let mut xs: [f64; 49155] = filled(0.0);
    floats::spread(&mut xs);
    fill(s, &xs, refs);
}

fn cubes(s: State) {
    let mut refs: [f64; 49155] = filled(0.0);
    let after = most(s, &mut refs);
    over(after, &mut refs);
}

// 3 by 3 by 3,641 cells: one more than 32,768, and starts enough for them.
fn long(s: State) {
    let mut refs = [0.0; 6];
    let mut pairs = [MARK; 2];
    let mut starts = [MARK; 32771];
    let mut items = [MARK; 2];
    build(
        s,
        boxed(3.0, 3.0, 3641.0),
        &[1.0, 1.0, 1.0, 1.0, 1.0, 1.0],
        &mut pairs,
        &mut refs,
        &mut starts,
        &mut items,
    );
}

pub(crate) fn all() {
    let Ok(s) = neighbor::new(7.5, 0.5) else {
        return;
    };
    let Ok(thin) = neighbor::new(1.0, 0.0) else {
        return;
    };
    cubes(s);
    long(thin);
}
