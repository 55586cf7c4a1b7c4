// Harmonic bonds: one bond, and the loop.
ghost use Rattle.std.specs.Prelude.{◌≡◌, ◌+◌, ◌/◌, ◌≤◌, ◌<◌, length, set};
ghost use mathlib.Core.List.{foldl};
ghost use Rattle.lists.specs.Lists.{up_to, rows};
ghost use Rattle.cell_prepared.specs.Facts.{image_in};
ghost use Rattle.potentials_pair.specs.Pull.{held};
ghost use Rattle.potentials.specs.Terms.{bond_step};
ghost use Rattle.potentials.specs.Blocks.{block_step, bond_at, length_on, bond_energy_on, bond_slope_on, bonded_step, with_pull, Block, Bonded, PlaceAdds, Sifted};

use crate::{Bond, BondRows, block, pairs};
use cell_prepared::Prepared;
use virial::Sum;

// Row b into place c: its force constant and its length at rest. How many places are taken then.
fn gather(
    bond: Bond,
    p: Prepared,
    bonds: &BondRows,
    xs: &[f64],
    b: usize,
    c: usize,
    atoms: &mut [usize],
    apart: &mut [f64],
    two: &mut [f64],
) -> usize
    requires { (c < 128) × (b < length bonds.now.ends.now / 2) × Block atoms.old apart.old two.old }
    ensures { PlaceAdds (block_step bond_at atoms.old apart.old two.old) (block_step bond_at atoms.new apart.new two.new) c result (bond_step (λ d. image_in p d) bond bonds.now.ends.now bonds.now.lengths.now bonds.now.ks.now xs.now) b }
{
    let i = pairs::first_of(bonds.ends, b);
    let j = pairs::second_of(bonds.ends, b);
    if pairs::is_absent(xs.len() / 3, i, j) {
        return c;
    }
    let r0 = potentials_pair::kernel::table_at(bonds.lengths, b, bond.r0);
    let k = potentials_pair::kernel::table_at(bonds.ks, b, bond.k);
    let d = pairs::quick_displacement(p, xs, i, j);
    block::put(c, i, j, d, k, r0, atoms, apart, two);
    c + 1
}

// The bonds of the rows from `from` to `to`, in their order. How many they are.
fn sift(
    bond: Bond,
    p: Prepared,
    bonds: &BondRows,
    xs: &[f64],
    from: usize,
    to: usize,
    atoms: &mut [usize],
    apart: &mut [f64],
    two: &mut [f64],
) -> usize
    requires { (from ≤ to) × (to ≤ from + 128) × (to ≤ length bonds.now.ends.now / 2) × Block atoms.old apart.old two.old }
    ensures { Sifted (block_step bond_at atoms.new apart.new two.new) result (bond_step (λ d. image_in p d) bond bonds.now.ends.now bonds.now.lengths.now bonds.now.ks.now xs.now) (up_to (length (rows bonds.now.ends.now))) from to }
{
    let mut c = 0;
    for b in from..to {
        c = gather(bond, p, bonds, xs, b, c, atoms, apart, two);
    }
    c
}

// An estimate of the length at each of the first n places. Nothing is said of their values: no call is left in this loop and no branch, so that two go in one
// instruction.
fn estimate_all(n: usize, apart: &[f64], roots: &mut [f64])
    requires { (n ≤ 128) × (384 ≤ length apart.now) × (length roots.old ≡ 128) }
    ensures { length roots.new ≡ 128 }
{
    for m in 0..n {
        let d = pairs::spot_at(apart, m);
        roots[m] = float::root_estimate(cell::vectors::norm2(d));
    }
}

// Length, energy and slope of place m, whatever the guess at its length.
fn pull_at(m: usize, apart: &[f64], two: &[f64], roots: &mut [f64], pulls: &mut [f64])
    requires { (m < 128) × (384 ≤ length apart.now) × (length two.now ≡ 256) × (length roots.old ≡ 128) × (length pulls.old ≡ 256) }
    ensures roots_after { roots.new ≡ set roots.old m (length_on apart.now m) }
    ensures pulls_after { pulls.new ≡ with_pull (bond_energy_on apart.now two.now) (bond_slope_on apart.now two.now) pulls.old m }
{
    let d = pairs::spot_at(apart, m);
    let r2 = cell::vectors::norm2(d);
    let k = two[2 * m];
    let r0 = two[2 * m + 1];
    let r = float::root_from(r2, roots[m]);
    roots[m] = r;
    pulls[2 * m] = potentials_pair::bonds::energy(k, r0, r);
    pulls[2 * m + 1] = potentials_pair::bonds::slope(k, r0, r);
}

// .. of the first n places.
fn pull_all(n: usize, apart: &[f64], two: &[f64], roots: &mut [f64], pulls: &mut [f64])
    requires { (n ≤ 128) × (384 ≤ length apart.now) × (length two.now ≡ 256) × (length roots.old ≡ 128) × (length pulls.old ≡ 256) }
    ensures { Bonded apart.now two.now roots.new pulls.new n }
{
    for m in 0..n {
        pull_at(m, apart, two, roots, pulls);
    }
}

// What place m adds: nothing where its atoms are not apart, a branch that is hardly ever taken.
fn add(
    m: usize,
    atoms: &[usize],
    apart: &[f64],
    roots: &[f64],
    pulls: &[f64],
    forces: &mut [f64],
    sum: Sum,
) -> Sum
    requires { (m < 128) × Block atoms.now apart.now pulls.now × (length roots.now ≡ 128) }
    ensures { held result forces.new ≡ bonded_step atoms.now apart.now roots.now pulls.now (held sum forces.old) m }
{
    if roots[m] < 1e-12 {
        return sum;
    }
    let d = pairs::spot_at(apart, m);
    let f = cell::vectors::scale(d, pulls[2 * m + 1]);
    let s = virial::kernel::with_energy(sum, pulls[2 * m]);
    virial::kernel::add_pair_force(s, forces, atoms[2 * m], atoms[2 * m + 1], d, f)
}

// What the first n places add, one after the other.
fn add_all(
    n: usize,
    atoms: &[usize],
    apart: &[f64],
    roots: &[f64],
    pulls: &[f64],
    forces: &mut [f64],
    sum: Sum,
) -> Sum
    requires { (n ≤ 128) × Block atoms.now apart.now pulls.now × (length roots.now ≡ 128) }
    ensures { held result forces.new ≡ foldl (bonded_step atoms.now apart.now roots.now pulls.now) (held sum forces.old) (up_to n) }
{
    let mut s = sum;
    for m in 0..n {
        s = add(m, atoms, apart, roots, pulls, forces, s);
    }
    s
}

// The bonds, a block after the other. `while`, since `block_end` says how far each turn goes: a `for` cannot jump.
fn by_blocks(
    bond: Bond,
    p: Prepared,
    bonds: &BondRows,
    xs: &[f64],
    atoms: &mut [usize],
    apart: &mut [f64],
    two: &mut [f64],
    roots: &mut [f64],
    pulls: &mut [f64],
    forces: &mut [f64],
    sum: Sum,
) -> Sum
    requires { Block atoms.old apart.old two.old × (length roots.old ≡ 128) × (length pulls.old ≡ 256) }
    ensures { held result forces.new ≡ foldl (bond_step (λ d. image_in p d) bond bonds.now.ends.now bonds.now.lengths.now bonds.now.ks.now xs.now) (held sum forces.old) (up_to (length (rows bonds.now.ends.now))) }
{
    let mut s = sum;
    let mut b = 0;
    while b < bonds.ends.len() / 2 {
        let to = block::block_end(b, bonds.ends.len() / 2);
        let n = sift(bond, p, bonds, xs, b, to, atoms, apart, two);
        estimate_all(n, apart, roots);
        pull_all(n, apart, two, roots, pulls);
        s = add_all(n, atoms, apart, roots, pulls, forces, s);
        b = to;
    }
    s
}

// The bonds, in order.
pub(crate) fn over(
    bond: Bond,
    p: Prepared,
    bonds: &BondRows,
    xs: &[f64],
    forces: &mut [f64],
    sum: Sum,
) -> Sum
    ensures { held result forces.new ≡ foldl (bond_step (λ d. image_in p d) bond bonds.now.ends.now bonds.now.lengths.now bonds.now.ks.now xs.now) (held sum forces.old) (up_to (length (rows bonds.now.ends.now))) }
{
    let mut atoms = block::blank_atoms();
    let mut apart = block::blank_apart();
    let mut two = block::blank_two();
    let mut roots = block::blank_one();
    let mut pulls = block::blank_two();
    by_blocks(
        bond, p, bonds, xs, &mut atoms, &mut apart, &mut two, &mut roots, &mut pulls, forces, sum,
    )
}
