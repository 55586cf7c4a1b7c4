// The direct Coulomb sum over a list.
ghost use Rattle.std.specs.Prelude.{◌≡◌, ◌+◌, ◌-◌, ◌/◌, ◌≤◌, ◌<◌, length};
ghost use mathlib.Core.List.{foldl};
ghost use Rattle.lists.specs.Lists.{up_to, rows};
ghost use Rattle.potentials_pair.specs.Pull.{held};
ghost use Rattle.potentials.specs.Steps.{coulomb_step};
ghost use Rattle.potentials.specs.Blocks.{coulomb_energy, coulomb_slope, with_pull, Pulled};
ghost use Rattle.potentials.specs.Rows.{coulomb_rowed, ChargesPicked};

use crate::{block, pairs, rows};
use cell_prepared::Prepared;
use virial::Sum;

// The Rust's `Coulomb`.
#[derive(Clone, Copy)]
pub struct Coulomb {
    pub cutoff: f64,
}

// Of n rows from `from` on those that have charges and are near, their places in order, with their charges' product and their squared distance. How many
// they are.
fn keep(
    ke: f64,
    cutoff: f64,
    charges: &[f64],
    table: &[u32],
    from: usize,
    n: usize,
    ways: &[f64],
    kept: &mut [usize],
    two: &mut [f64],
) -> usize
    requires { (n ≤ 128) × (from + n ≤ length table.now / 2) × (length ways.now ≡ 512) × (length kept.old ≡ 128) × (length two.old ≡ 256) }
    ensures { ChargesPicked ke cutoff charges.now table.now from ways.now n kept.new two.new result }
{
    let mut c = 0;
    for t in 0..n {
        let i = pairs::first_of(table, from + t);
        let j = pairs::second_of(table, from + t);
        let a = potentials_pair::kernel::table_at(charges, i, 0.0);
        let b = potentials_pair::kernel::table_at(charges, j, 0.0);
        let r2 = ways[384 + t];
        kept[c] = t;
        two[2 * c] = ke * a * b;
        two[2 * c + 1] = r2;
        let neutral = potentials_pair::coulomb::is_neutral(a, b);
        let far = potentials_pair::kernel::is_skipped(cutoff, r2);
        c = block::taken(neutral | far, c);
    }
    c
}

// An estimate of the distance at each of the first n places. Nothing is said of their values: no call is left in this loop and no branch, so that two go in
// one instruction.
fn estimate_all(n: usize, two: &[f64], guesses: &mut [f64])
    requires { (n ≤ 128) × (length two.now ≡ 256) × (length guesses.old ≡ 128) }
    ensures { length guesses.new ≡ 128 }
{
    for m in 0..n {
        guesses[m] = float::root_estimate(two[2 * m + 1]);
    }
}

// Energy and slope of place m, whatever the guess at its distance.
fn pull_at(m: usize, two: &[f64], guesses: &[f64], pulls: &mut [f64])
    requires { (m < 128) × (length two.now ≡ 256) × (length guesses.now ≡ 128) × (length pulls.old ≡ 256) }
    ensures { pulls.new ≡ with_pull (coulomb_energy two.now) (coulomb_slope two.now) pulls.old m }
{
    let qq = two[2 * m];
    let r2 = two[2 * m + 1];
    let r = float::root_from(r2, guesses[m]);
    pulls[2 * m] = qq / r;
    pulls[2 * m + 1] = qq / (r2 * r);
}

// .. of the first n places.
pub(crate) fn pull_all(n: usize, two: &[f64], pulls: &mut [f64])
    requires { (n ≤ 128) × (length two.now ≡ 256) × (length pulls.old ≡ 256) }
    ensures { Pulled (coulomb_energy two.now) (coulomb_slope two.now) pulls.new n }
{
    let mut guesses = block::blank_one();
    estimate_all(n, two, &mut guesses);
    for m in 0..n {
        pull_at(m, two, &guesses, pulls);
    }
}

// What the rows from `from` up to `to` add.
pub(crate) fn add(
    ke: f64,
    cutoff: f64,
    charges: &[f64],
    table: &[u32],
    from: usize,
    to: usize,
    ways: &[f64],
    two: &mut [f64],
    pulls: &mut [f64],
    forces: &mut [f64],
    sum: Sum,
) -> Sum
    requires { (from ≤ to) × (to ≤ from + 128) × (to ≤ length table.now / 2) × (length ways.now ≡ 512) × (length two.old ≡ 256) × (length pulls.old ≡ 256) }
    ensures { held result forces.new ≡ foldl (coulomb_rowed ke cutoff charges.now table.now from ways.now) (held sum forces.old) (up_to (to - from)) }
{
    let mut kept = rows::blank_kept();
    let n = keep(
        ke,
        cutoff,
        charges,
        table,
        from,
        to - from,
        ways,
        &mut kept,
        two,
    );
    pull_all(n, two, pulls);
    rows::add_all(n, table, from, &kept, ways, pulls, forces, sum)
}

// The rows of a list, a block after the other. `while`, since `block_end` says how far each turn goes: a `for` cannot jump.
fn by_blocks(
    ke: f64,
    cutoff: f64,
    p: Prepared,
    charges: &[f64],
    xs: &[f64],
    table: &[u32],
    ways: &mut [f64],
    two: &mut [f64],
    pulls: &mut [f64],
    forces: &mut [f64],
    sum: Sum,
) -> Sum
    requires { (length ways.old ≡ 512) × (length two.old ≡ 256) × (length pulls.old ≡ 256) }
    ensures { held result forces.new ≡ foldl (coulomb_step ke cutoff p charges.now xs.now) (held sum forces.old) (rows table.now) }
{
    let mut s = sum;
    let mut k = 0;
    let mut went = true;
    while k < table.len() / 2 {
        let to = block::block_end(k, table.len() / 2);
        went = rows::lay_rows(p, xs, table, k, to, ways, went);
        s = add(
            ke, cutoff, charges, table, k, to, ways, two, pulls, forces, s,
        );
        k = to;
    }
    s
}

// The rows of a list, in order.
pub fn over(
    ke: f64,
    cutoff: f64,
    p: Prepared,
    charges: &[f64],
    xs: &[f64],
    table: &[u32],
    forces: &mut [f64],
    sum: Sum,
) -> Sum
    ensures { held result forces.new ≡ foldl (coulomb_step ke cutoff p charges.now xs.now) (held sum forces.old) (rows table.now) }
{
    let mut ways = rows::blank_ways();
    let mut two = block::blank_two();
    let mut pulls = block::blank_two();
    by_blocks(
        ke, cutoff, p, charges, xs, table, &mut ways, &mut two, &mut pulls, forces, sum,
    )
}
