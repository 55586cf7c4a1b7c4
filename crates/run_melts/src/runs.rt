// Evaluations with every term at 1,000, 4,000 and 16,000 atoms: Lennard-Jones of three species, one of them by the default, with the shift in a cubic cell and
// without it in a tilted one; charges; bonds, most of them past the end of the per-bond tables, which are excluded from the list. In each cell the list is
// built, kept after a small move and built again after a larger one. A line an evaluation: refusal and place, rebuilt, the pairs, the checks, the fallback,
// the energy's bits, the virial's nine, and a digest of the forces' bits in their order. `tools/evaluations.rs` is the same over the Rust.
//
// Runs of velocity Verlet with every term and the thermostat: 1,000 steps at 1,000 atoms in a cubic cell, and 200 at 216 in a tilted one where the room for
// pairs is too small for later builds, so that steps stop with an 8 and are finished with more. A line at the start, at steps 1, 10 and 100 and
// at the end: the step, refusal and place, the builds, the pairs, the potential's bits and the temperature's, and digests of positions, velocities and
// forces; and one at each stop: the step, refusal and place, the builds, a digest of the drifted positions. Then a step of 16,384 atoms, and a step and its
// finish refused for one more: refusal and place, stopped, the potential's bits. `tools/steps.rs` is the same over the Rust, which never stops.
//
// All by one loop, over arrays of its own, with the call that the replay answers by.
use crate::liquid::Form;
use crate::parts::{front, front_mut};
use crate::{liquid, show, terms};
use answer::Refusal;
use evaluate::Evaluated;
use neighbor::State;
use replay_melts::works;
use replay_melts::works::{Came, Given, Work};
use replay_words::filled;
use verlet_step::Stepped;

// What a run does: evaluations; a first evaluation and steps; a step and its finish, refused. One loop does all three,
// since its arrays take some four million bytes of the stack.
#[derive(Clone, Copy)]
pub(crate) enum Kind {
    Evaluations,
    Steps,
    Over,
}

// `turns` in all. `few` is the room for its pairs until that stops it.
#[derive(Clone, Copy)]
pub(crate) struct Run {
    kind: Kind,
    last: u8,
    atoms: usize,
    places: usize,
    bonds: usize,
    few: usize,
    turns: usize,
    dof: f64,
    shift: bool,
    edge: f64,
}

// Where a run stands: the turn, the list and the potential before it, whether the turn before was stopped, the room for pairs, whether there is a turn.
#[derive(Clone, Copy)]
struct Reached {
    turn: usize,
    state: State,
    potential: f64,
    stopped: bool,
    room: usize,
    goes: bool,
}

// The list of every run before its first build.
fn list() -> State {
    terms::list(6.0, 1.0)
}

fn begun(room: usize) -> Reached {
    Reached {
        turn: 0,
        state: list(),
        potential: 0.5,
        stopped: false,
        room,
        goes: true,
    }
}

// Where the evaluation `k` of six stands: twice a move by less than half the skin, so that the list is kept and then built again; then back.
fn form(last: u8, k: usize) -> Form {
    if k == 0 {
        return Form::Places { last, spacing: 3.5 };
    }
    if k % 3 == 0 {
        return Form::Moved {
            low: 0.5,
            width: -1.0,
        };
    }
    Form::Moved {
        low: -0.25,
        width: 0.5,
    }
}

// Whether places are set before a turn: of a run of steps before the first alone.
fn is_placed(kind: Kind, k: usize, stopped: bool) -> bool {
    match kind {
        Kind::Evaluations => true,
        _ => (k == 0) & !stopped,
    }
}

fn place(run: Run, r: Reached, xs: &mut [f64]) {
    if is_placed(run.kind, r.turn, r.stopped) {
        liquid::fill(form(run.last, r.turn), xs);
    }
}

fn work_of(kind: Kind, k: usize, stopped: bool) -> Work {
    match kind {
        Kind::Evaluations => Work::Evaluate,
        Kind::Steps => {
            if stopped {
                return Work::Finish(terms::pace());
            }
            if k == 0 {
                return Work::Evaluate;
            }
            Work::Step(terms::pace())
        }
        Kind::Over => {
            if k == 0 {
                return Work::Step(terms::pace());
            }
            Work::Finish(terms::pace())
        }
    }
}

// A new list in each cell.
fn state_before(kind: Kind, k: usize, s: State) -> State {
    match kind {
        Kind::Evaluations => {
            if k % 3 == 0 {
                return list();
            }
            s
        }
        _ => s,
    }
}

// Three evaluations in the cubic cell, three in the tilted one.
fn is_cubic(kind: Kind, shift: bool, k: usize) -> bool {
    match kind {
        Kind::Evaluations => k < 3,
        _ => shift,
    }
}

fn given<'a>(run: Run, r: Reached, us: &'a [u32; 38231], fs: &'a [f64; 33274]) -> Given<'a> {
    terms::given(
        work_of(run.kind, r.turn, r.stopped),
        terms::setting(is_cubic(run.kind, run.shift, r.turn), run.edge),
        state_before(run.kind, r.turn, r.state),
        r.potential,
        run.atoms,
        run.bonds,
        us,
        fs,
    )
}

fn after(k: usize) -> usize {
    if k < 1000000 { k + 1 } else { k }
}

// A turn that is over, and what it left.
fn advanced(run: Run, r: Reached, state: State, potential: f64) -> Reached {
    let turn = after(r.turn);
    Reached {
        turn,
        state,
        potential,
        stopped: false,
        room: r.room,
        goes: turn < run.turns,
    }
}

// A stopped turn is finished with all the room. No run settles.
fn after_turn(run: Run, r: Reached, came: &Came) -> Reached {
    match came {
        Came::Evaluated(e) => advanced(run, r, e.state, e.sum.energy),
        Came::Stepped(s) => {
            if s.stopped {
                return Reached {
                    turn: r.turn,
                    state: s.state,
                    potential: s.potential,
                    stopped: true,
                    room: 600000,
                    goes: true,
                };
            }
            advanced(run, r, s.state, s.potential)
        }
        Came::Settled(_) => r,
    }
}

fn put_evaluated(e: &Evaluated, forces: &[f64]) {
    show::put_done(e.done);
    show::put_flag(e.rebuilt);
    show::put(u64::from(e.state.pairs));
    show::put(u64::from(e.state.checks));
    show::put_flag(e.state.fallback);
    show::put_sum(e.sum);
    show::end(liquid::digest_floats(forces));
}

fn put_number(n: Result<f64, Refusal>) {
    match n {
        Ok(x) => {
            show::put_float(x);
        }
        Err(why) => {
            show::put(why.number());
        }
    }
}

fn put_step(
    run: Run,
    k: usize,
    done: Result<(), Refusal>,
    s: State,
    potential: f64,
    fs: &[f64; 33274],
    xs: &[f64],
    vs: &[f64],
    forces: &[f64],
) {
    show::put(k as u64);
    show::put_done(done);
    show::put(u64::from(s.builds));
    show::put(u64::from(s.pairs));
    show::put_float(potential);
    put_number(verlet::temperature(terms::units(), run.dof, vs, terms::masses(fs, run.atoms)));
    show::put(liquid::digest_floats(xs));
    show::put(liquid::digest_floats(vs));
    show::end(liquid::digest_floats(forces));
}

fn is_shown(k: usize, turns: usize) -> bool {
    (k == 0) | (k == 1) | (k == 10) | (k == 100) | (after(k) == turns)
}

fn put_stop(k: usize, s: &Stepped, xs: &[f64]) {
    show::put(k as u64);
    show::put_done(s.done);
    show::put(u64::from(s.state.builds));
    show::end(liquid::digest_floats(xs));
}

fn put_refused(s: &Stepped) {
    show::put_done(s.done);
    show::put_flag(s.stopped);
    show::end(float::to_bits(s.potential));
}

// A turn's line, where it has one.
fn put_turn(
    run: Run,
    k: usize,
    came: &Came,
    fs: &[f64; 33274],
    xs: &[f64],
    vs: &[f64],
    forces: &[f64],
) {
    match came {
        Came::Evaluated(e) => match run.kind {
            Kind::Evaluations => put_evaluated(e, forces),
            _ => put_step(run, k, e.done, e.state, e.sum.energy, fs, xs, vs, forces),
        },
        Came::Stepped(s) => match run.kind {
            Kind::Over => put_refused(s),
            _ => {
                if s.stopped {
                    put_stop(k, s, xs);
                } else if is_shown(k, run.turns) {
                    put_step(run, k, s.done, s.state, s.potential, fs, xs, vs, forces);
                }
            }
        },
        Came::Settled(_) => {}
    }
}

// Velocities near 300 K.
fn ran(run: Run) {
    let us = terms::wholes();
    let fs = terms::reals();
    let mut xs: [f64; 49155] = filled(0.0);
    let mut vs = terms::speeds();
    let mut forces: [f64; 49155] = filled(0.0);
    let mut pairs: [u32; 600000] = filled(0);
    let mut refs: [f64; 49155] = filled(0.0);
    let mut starts: [u32; 4096] = filled(0);
    let mut items: [u32; 16385] = filled(0);
    let n = run.places;
    let mut r = begun(run.few);
    for _ in 0..1000000 {
        if !r.goes {
            break;
        }
        let k = r.turn;
        place(run, r, front_mut(&mut xs, n));
        let came = works::worked(
            given(run, r, &us, &fs),
            front_mut(&mut xs, n),
            front_mut(&mut vs, n),
            front_mut(&mut pairs, r.room),
            &mut refs,
            &mut starts,
            &mut items,
            front_mut(&mut forces, n),
        );
        r = after_turn(run, r, &came);
        put_turn(
            run,
            k,
            &came,
            &fs,
            front(&xs, n),
            front(&vs, n),
            front(&forces, n),
        );
    }
}

fn evaluations(last: u8, atoms: usize, places: usize, bonds: usize, edge: f64) -> Run {
    Run {
        kind: Kind::Evaluations,
        last,
        atoms,
        places,
        bonds,
        few: 600000,
        turns: 6,
        dof: 0.0,
        shift: true,
        edge,
    }
}

fn thousand() -> Run {
    Run {
        kind: Kind::Steps,
        last: 9,
        atoms: 1000,
        places: 3000,
        bonds: 1332,
        few: 40000,
        turns: 1001,
        dof: 3000.0,
        shift: true,
        edge: 35.0,
    }
}

// Room for 3,250 pairs at first.
fn stopped() -> Run {
    Run {
        kind: Kind::Steps,
        last: 5,
        atoms: 216,
        places: 648,
        bonds: 288,
        few: 6500,
        turns: 201,
        dof: 648.0,
        shift: false,
        edge: 21.0,
    }
}

// One step of the most atoms.
fn most() -> Run {
    Run {
        kind: Kind::Steps,
        last: 25,
        atoms: 16384,
        places: 49152,
        bonds: 21844,
        few: 480000,
        turns: 2,
        dof: 49152.0,
        shift: true,
        edge: 91.0,
    }
}

// One atom more.
fn over() -> Run {
    Run {
        kind: Kind::Over,
        last: 25,
        atoms: 16385,
        places: 49155,
        bonds: 0,
        few: 2,
        turns: 2,
        dof: 49155.0,
        shift: true,
        edge: 91.0,
    }
}

pub(crate) fn all() {
    ran(evaluations(9, 1000, 3000, 1332, 35.0));
    ran(evaluations(15, 4000, 12000, 5332, 56.0));
    ran(evaluations(25, 16000, 48000, 21332, 91.0));
    ran(thousand());
    ran(stopped());
    ran(most());
    ran(over());
}
