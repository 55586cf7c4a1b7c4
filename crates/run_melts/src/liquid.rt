// A liquid of molecules of three atoms, made by whole-number arithmetic; its cells; digests. `tools/liquid.rs` and `tools/digests.rs` have the same formulas.
use cell::{Lattice, Vec3};

// What a list of floats is filled with.
#[derive(Clone, Copy)]
pub(crate) enum Form {
    // Places of a cubic lattice, `last` + 1 on an axis, each coordinate off by less than a quarter of the spacing.
    Places { last: u8, spacing: f64 },
    // From `low` to below `low` + `width`.
    Spread { low: f64, width: f64 },
    // What is there, moved by as much.
    Moved { low: f64, width: f64 },
    // One number for each of a molecule's atoms.
    Thirds { a: f64, b: f64, c: f64 },
    // By chance, from a quarter of the edge below 0 to a quarter past it; every second atom near the one before it, so that exclusions meet near pairs.
    Drawn { edge: f64 },
}

// A number of chance, and the last three of a list: `c` is the last.
#[derive(Clone, Copy)]
struct Row {
    seed: u64,
    a: f64,
    b: f64,
    c: f64,
}

// Below 2^52, a whole number's low bits beside 2^52 are itself: so the square is taken in floats, where nothing can wrap.
fn square(h: u32) -> u64 {
    let x = f64::from(h);
    float::to_bits(4503599627370496.0 + x * x) % 4503599627370496
}

fn fraction(k: usize) -> f64 {
    let a = k % 65521;
    let h = (a * 48271 % 65521) as u32;
    ((square(h) % 65521 + a as u64) % 65521) as u32 as f64 / 65521.0
}

fn scattered(low: f64, width: f64, k: usize) -> f64 {
    low + width * fraction(k)
}

fn site(last: u8, k: usize) -> u32 {
    let side = usize::from(last) + 1;
    let a = k / 3;
    if k % 3 == 0 {
        return (a % side % 256) as u32;
    }
    if k % 3 == 1 {
        return (a / side % side % 256) as u32;
    }
    (a / side / side % side % 256) as u32
}

fn place(last: u8, spacing: f64, k: usize) -> f64 {
    (site(last, k) as f64 - 2.0 + 0.25 * fraction(k)) * spacing
}

fn third(a: f64, b: f64, c: f64, k: usize) -> f64 {
    if k % 3 == 0 {
        return a;
    }
    if k % 3 == 1 {
        return b;
    }
    c
}

fn drawn(edge: f64, row: Row, k: usize) -> f64 {
    let x = ((row.seed % 65536) as u32 as f64 / 65536.0 * 1.5 - 0.25) * edge;
    if k / 3 % 2 == 1 {
        return row.a + 0.03125 * x;
    }
    x
}

fn number(form: Form, row: Row, k: usize, x: f64) -> f64 {
    match form {
        Form::Places { last, spacing } => place(last, spacing, k),
        Form::Spread { low, width } => scattered(low, width, k),
        Form::Moved { low, width } => x + scattered(low, width, k),
        Form::Thirds { a, b, c } => third(a, b, c, k),
        Form::Drawn { edge } => drawn(edge, row, k),
    }
}

fn next(form: Form, before: Row, k: usize, x: f64) -> Row {
    let row = Row {
        seed: before.seed % 2147483647 * 48271 % 2147483647,
        ..before
    };
    Row {
        seed: row.seed,
        a: row.b,
        b: row.c,
        c: number(form, row, k, x),
    }
}

pub(crate) fn fill(form: Form, xs: &mut [f64]) {
    let mut row = Row {
        seed: 1,
        a: 0.0,
        b: 0.0,
        c: 0.0,
    };
    for (k, x) in xs.iter_mut().enumerate() {
        row = next(form, row, k, *x);
        *x = row.c;
    }
}

// What a table is filled with.
#[derive(Clone, Copy)]
pub(crate) enum Table {
    // A molecule's atoms: 1, 2, 3.
    Species,
    // Each molecule's first atom and second, second and third.
    Bonds,
    // Each atom and the next: rows 0 1, 1 2, ..
    Chain,
}

fn entry(table: Table, k: usize) -> u32 {
    match table {
        Table::Species => (k % 3 + 1) as u32,
        Table::Bonds => ((3 * (k / 4) + k / 2 % 2 + k % 2) % 4294967296) as u32,
        Table::Chain => ((k % 4294967294 + 1) / 2) as u32,
    }
}

pub(crate) fn tabulate(table: Table, xs: &mut [u32]) {
    for (k, x) in xs.iter_mut().enumerate() {
        *x = entry(table, k);
    }
}

// No right angle, so that the general way of the minimum image is taken.
pub(crate) fn tilted(edge: f64) -> Option<Lattice> {
    Some(Lattice {
        a: Vec3 {
            x: edge,
            y: 0.0,
            z: 0.0,
        },
        b: Vec3 {
            x: edge / 8.0,
            y: edge,
            z: 0.0,
        },
        c: Vec3 {
            x: edge / -16.0,
            y: edge / 8.0,
            z: edge,
        },
        px: true,
        py: true,
        pz: true,
    })
}

pub(crate) fn cubic(edge: f64) -> Option<Lattice> {
    Some(cell::kernel::cubic(edge))
}

// The cubic cell, or the tilted one.
pub(crate) fn boxed(is_cubic: bool, edge: f64) -> Option<Lattice> {
    if is_cubic {
        return cubic(edge);
    }
    tilted(edge)
}

fn step(h: u64, x: u32) -> u64 {
    (h % 4294967291 * 1000003 + u64::from(x)) % 4294967291
}

pub(crate) fn digest(xs: &[u32]) -> u64 {
    xs.iter().fold(7, |h, x| step(h, *x))
}

fn step_float(h: u64, x: f64) -> u64 {
    let b = float::to_bits(x);
    step(step(h, (b / 4294967296) as u32), (b % 4294967296) as u32)
}

pub(crate) fn digest_floats(xs: &[f64]) -> u64 {
    xs.iter().fold(7, |h, x| step_float(h, *x))
}
