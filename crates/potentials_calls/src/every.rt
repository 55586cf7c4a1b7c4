// Every pair of the atoms, i, then j, rising: as rows of a table that is filled again and again, so that the loop over a list's rows does the work.
ghost use Rattle.std.specs.Prelude.{◌≡◌, ◌≤◌, ◌<◌, length};
ghost use mathlib.Core.List.{foldl};
ghost use Rattle.lists.specs.Atoms.{atoms_of};
ghost use Rattle.lists.specs.Lists.{all_pairs};
ghost use Rattle.potentials_pair.specs.Species.{tables_of, look_by};
ghost use Rattle.potentials_pair.specs.Pull.{held};
ghost use Rattle.potentials.specs.Terms.{lj_over, coulomb_over};
ghost use Rattle.potentials.specs.Steps.{lj_step, coulomb_step};
ghost use Rattle.potentials_calls.specs.AllPairs.{PairPut, PairsFilled};

use cell::Lattice;
use cell_prepared::Prepared;
use potentials_pair::{Lj, SpeciesTables};
use virial::{Sum, Units};

// A pair.
#[derive(Drop)]
struct Two {
    i: usize,
    j: usize,
}

// How many rows are filled, and the pair that comes next.
#[derive(Drop)]
struct Chunk {
    rows: usize,
    i: usize,
    j: usize,
}

// In a function of its own, so that no proof writes out its numbers.
fn blank_table() -> [u32; 2048]
    ensures { length result ≡ 2048 }
{
    [0u32; 2048]
}

// (i, j) into row c. The pair that comes next.
fn put(n: usize, i: usize, j: usize, c: usize, table: &mut [u32]) -> Two
    requires { (i < j) × (j < n) × (n ≤ 16384) × (c < 1024) × (length table.old ≡ 2048) }
    ensures { PairPut n table.old table.new c i j result.i result.j }
{
    table[2 * c] = i as u32;
    table[2 * c + 1] = j as u32;
    if j + 1 < n {
        return Two { i: i, j: j + 1 };
    }
    let a = i + 1;
    Two { i: a, j: a + 1 }
}

// The pairs from (i, j) on, 1024 or as many as there are. `while`, since two tests end it: a full table, and no pair left.
fn fill(n: usize, i: usize, j: usize, table: &mut [u32]) -> Chunk
    requires { (i < j) × (j < n) × (n ≤ 16384) × (length table.old ≡ 2048) }
    ensures { PairsFilled n table.new result.rows i j result.i result.j }
{
    let mut at = put(n, i, j, 0, table);
    let mut c = 1;
    while (c < 1024) & (at.j < n) {
        at = put(n, at.i, at.j, c, table);
        c += 1;
    }
    Chunk {
        rows: c,
        i: at.i,
        j: at.j,
    }
}

// `while`, since each turn says with which pair the next begins: a `for` cannot jump.
fn lj_from(
    lj: Lj,
    p: Prepared,
    tables: &SpeciesTables,
    species: &[u32],
    xs: &[f64],
    table: &mut [u32],
    forces: &mut [f64],
    sum: Sum,
) -> Sum
    requires { (atoms_of xs.now ≤ 16384) × (length table.old ≡ 2048) }
    ensures { held result forces.new ≡ foldl (lj_step lj p (tables_of tables.now) species.now xs.now) (held sum forces.old) (all_pairs (atoms_of xs.now)) }
{
    let mut s = sum;
    let mut i = 0;
    let mut j = 1;
    while j < xs.len() / 3 {
        let c = fill(xs.len() / 3, i, j, table);
        let m = 2 * c.rows;
        s = potentials::lennard_jones::over(lj, p, tables, species, xs, &table[..m], forces, s);
        i = c.i;
        j = c.j;
    }
    s
}

pub(crate) fn lj_all(
    lj: Lj,
    cell: Option<Lattice>,
    tables: &SpeciesTables,
    species: &[u32],
    positions: &[f64],
    forces: &mut [f64],
) -> Sum
    requires { atoms_of positions.now ≤ 16384 }
    ensures { held result forces.new ≡ lj_over (look_by (tables_of tables.now) lj) lj cell species.now positions.now (length forces.old) (all_pairs (atoms_of positions.now)) }
{
    virial::kernel::clear(forces);
    let p = cell_prepared::prepare(cell);
    let sum = virial::kernel::zero();
    let mut table = blank_table();
    lj_from(lj, p, tables, species, positions, &mut table, forces, sum)
}

// `while`, since each turn says with which pair the next begins: a `for` cannot jump.
fn coulomb_from(
    ke: f64,
    cutoff: f64,
    p: Prepared,
    charges: &[f64],
    xs: &[f64],
    table: &mut [u32],
    forces: &mut [f64],
    sum: Sum,
) -> Sum
    requires { (atoms_of xs.now ≤ 16384) × (length table.old ≡ 2048) }
    ensures { held result forces.new ≡ foldl (coulomb_step ke cutoff p charges.now xs.now) (held sum forces.old) (all_pairs (atoms_of xs.now)) }
{
    let mut s = sum;
    let mut i = 0;
    let mut j = 1;
    while j < xs.len() / 3 {
        let c = fill(xs.len() / 3, i, j, table);
        let m = 2 * c.rows;
        s = potentials::coulomb::over(ke, cutoff, p, charges, xs, &table[..m], forces, s);
        i = c.i;
        j = c.j;
    }
    s
}

pub(crate) fn coulomb_all(
    units: Units,
    cutoff: f64,
    cell: Option<Lattice>,
    charges: &[f64],
    positions: &[f64],
    forces: &mut [f64],
) -> Sum
    requires { atoms_of positions.now ≤ 16384 }
    ensures { held result forces.new ≡ coulomb_over units.ke_coulomb cutoff cell charges.now positions.now (length forces.old) (all_pairs (atoms_of positions.now)) }
{
    virial::kernel::clear(forces);
    let p = cell_prepared::prepare(cell);
    let sum = virial::kernel::zero();
    let mut table = blank_table();
    coulomb_from(
        units.ke_coulomb,
        cutoff,
        p,
        charges,
        positions,
        &mut table,
        forces,
        sum,
    )
}
