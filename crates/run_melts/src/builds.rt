// Builds of the float frame at 1,000, 4,000 and 16,000 atoms, in a cubic cell, a tilted one and none, with and without exclusions, and one without a grid.
// A line a build: refusal and place, the pairs, the checks, the fallback, and a digest of the pairs in their order. `tools/digests.rs` is the same over the Rust.
use crate::liquid::{Form, Table};
use crate::{liquid, show, terms};
use cell::Lattice;
use neighbor::Updated;
use replay_words::filled;

fn put_built(u: Updated, pairs: &[u32]) {
    show::put_done(u.done);
    show::put(u64::from(u.state.pairs));
    show::put(u64::from(u.state.checks));
    show::put_flag(u.state.fallback);
    show::end(liquid::digest(neighbor::listed(u.state, pairs)));
}

fn build(cell: Option<Lattice>, cutoff: f64, xs: &[f64], table: &[u32]) {
    let mut pairs: [u32; 600000] = filled(0);
    let mut refs: [f64; 49155] = filled(0.0);
    let mut starts: [u32; 32769] = filled(0);
    let mut items = [0u32; 16000];
    let u = neighbor::build(
        terms::list(cutoff, 0.5),
        cell,
        xs,
        table,
        &mut pairs,
        &mut refs,
        &mut starts,
        &mut items,
    );
    put_built(u, &pairs);
}

// Without exclusions and with them.
fn both(cell: Option<Lattice>, xs: &[f64], table: &[u32]) {
    build(cell, 2.5, xs, &[]);
    build(cell, 2.5, xs, table);
}

fn all_cells(edge: f64, xs: &[f64], table: &[u32]) {
    both(liquid::cubic(edge), xs, table);
    both(liquid::tilted(edge), xs, table);
    both(None, xs, table);
}

fn draw(edge: f64, xs: &mut [f64], table: &mut [u32]) {
    liquid::fill(Form::Drawn { edge }, xs);
    liquid::tabulate(Table::Chain, table);
}

fn small() {
    let mut xs = [0.0; 3000];
    let mut table = [0u32; 1998];
    draw(20.0, &mut xs, &mut table);
    all_cells(20.0, &xs, &table);
    // fewer than three bins on an axis: no grid
    build(liquid::tilted(20.0), 7.0, &xs, &table);
}

fn middle() {
    let mut xs = [0.0; 12000];
    let mut table = [0u32; 7998];
    draw(32.0, &mut xs, &mut table);
    all_cells(32.0, &xs, &table);
}

fn large() {
    let mut xs = [0.0; 48000];
    let mut table = [0u32; 31998];
    draw(50.0, &mut xs, &mut table);
    all_cells(50.0, &xs, &table);
}

pub(crate) fn all() {
    small();
    middle();
    large();
}
