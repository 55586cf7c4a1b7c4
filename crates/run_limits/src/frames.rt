// The limits of the whole-number frame. A line a build: the refusal's number and place, then the pairs, the checks, the fallback where it is answered, and a
// digest of each lent memory, which holds MARK before.
use crate::show;
use answer::Refusal;
use frame::{Built, Frame, Side};
use replay_words::filled;

// A number that a build is not to leave where it writes.
pub(crate) const MARK: u32 = 4242424242;

// Of coordinate k, its atom's cell on that axis, of 32, 32 and 16; each atom has its own.
pub(crate) fn cell_of(k: usize) -> usize {
    let atom = k / 3;
    if k % 3 == 0 {
        return atom % 32;
    }
    if k % 3 == 1 {
        return atom / 32 % 32;
    }
    atom / 1024 % 16
}

// And its offset there, which goes round by the atom.
pub(crate) fn offset_of(k: usize) -> usize {
    let atom = k / 3;
    if k % 3 == 0 {
        return atom % 7;
    }
    if k % 3 == 1 {
        return atom % 5;
    }
    atom % 3
}

// Cells ten wide.
fn spot(k: usize) -> u32 {
    (cell_of(k) % 32 * 10 + offset_of(k) % 10) as u32
}

fn spread(xs: &mut [u32]) {
    for (k, x) in xs.iter_mut().enumerate() {
        *x = spot(k);
    }
}

pub(crate) fn step(h: u64, x: u32) -> u64 {
    (h % 4294967291 * 31 + u64::from(x)) % 4294967291
}

pub(crate) fn digest(xs: &[u32]) -> u64 {
    xs.iter().fold(7, |h, x| step(h, *x))
}

pub(crate) fn put_built(answer: Result<Built, Refusal>) {
    if let Some(built) = show::put_head(answer) {
        show::put(u64::from(built.pairs));
        show::put(u64::from(built.checks));
        show::put_flag(built.fallback);
    }
}

fn build(f: Frame, xs: &[u32], starts: &mut [u32]) {
    let mut pairs: [u32; 200000] = filled(MARK);
    let mut items: [u32; 16390] = filled(MARK);
    put_built(frame::build(f, xs, &[], &mut pairs, starts, &mut items));
    show::put(digest(&pairs));
    show::put(digest(starts));
    show::end(digest(&items));
}

pub(crate) fn boxed(x: u32, y: u32, z: u32, radius: u32) -> Frame {
    Frame {
        x: Side {
            edge: x,
            round: true,
        },
        y: Side {
            edge: y,
            round: true,
        },
        z: Side {
            edge: z,
            round: true,
        },
        radius,
    }
}

fn cube() -> Frame {
    boxed(320, 320, 320, 10)
}

fn build_roomy(f: Frame, xs: &[u32]) {
    let mut starts: [u32; 32769] = filled(MARK);
    build(f, xs, &mut starts);
}

// 16,384 atoms in 32,768 cells, with just the starts that they need, and with one start fewer.
fn most() {
    let mut xs: [u32; 49152] = filled(0);
    let mut fewer: [u32; 32768] = filled(MARK);
    spread(&mut xs);
    build_roomy(cube(), &xs);
    build(cube(), &xs, &mut fewer);
}

// One atom more.
fn over() {
    let mut xs: [u32; 49155] = filled(0);
    spread(&mut xs);
    build_roomy(cube(), &xs);
}

pub(crate) fn all() {
    most();
    over();
    // 3 by 3 by 3,641 cells: one more than 32,768
    build_roomy(boxed(3, 3, 3641, 1), &[1, 1, 1, 1, 1, 1]);
}
