// Lennard-Jones and Coulomb over one list in one walk: how a block's atoms lie is found once for both. Each term keeps the rows that it does not skip, has its
// own forces and its own sum, and adds in the list's order, as alone.
ghost use Rattle.std.specs.Prelude.{◌≡◌, length};
ghost use mathlib.Core.List.{foldl};
ghost use Rattle.lists.specs.Lists.{rows};
ghost use Rattle.potentials_pair.specs.Species.{tables_of};
ghost use Rattle.potentials_pair.specs.Pull.{held};
ghost use Rattle.potentials.specs.Steps.{lj_step, coulomb_step, Kept};

use crate::{BothSums, block, coulomb, kept, lennard_jones, rows};
use cell_prepared::Prepared;
use potentials_pair::{Lj, SpeciesTables};
use virial::Sum;

// The rows of a list, a block after the other. `while`, since `block_end` says how far each turn goes: a `for` cannot jump.
fn by_blocks(
    lj: Lj,
    ke: f64,
    cutoff: f64,
    p: Prepared,
    tables: &SpeciesTables,
    species: &[u32],
    charges: &[f64],
    xs: &[f64],
    table: &[u32],
    ways: &mut [f64],
    atoms: &mut [usize],
    room: &mut [f64],
    two: &mut [f64],
    pulls: &mut [f64],
    forces: &mut [f64],
    others: &mut [f64],
    sum: Sum,
) -> BothSums
    requires ways_len { (length ways.old ≡ 512) × (length two.old ≡ 256) × (length pulls.old ≡ 256) }
    requires kept { Kept lj (tables_of tables.now) atoms.old room.old }
    ensures forces_after { held result.lj forces.new ≡ foldl (lj_step lj p (tables_of tables.now) species.now xs.now) (held sum forces.old) (rows table.now) }
    ensures others_after { held result.coulomb others.new ≡ foldl (coulomb_step ke cutoff p charges.now xs.now) (held sum others.old) (rows table.now) }
{
    let mut s = sum;
    let mut t = sum;
    let mut k = 0;
    let mut went = true;
    while k < table.len() / 2 {
        let to = block::block_end(k, table.len() / 2);
        went = rows::lay_rows(p, xs, table, k, to, ways, went);
        s = lennard_jones::add(
            lj, tables, species, table, k, to, ways, atoms, room, pulls, forces, s,
        );
        t = coulomb::add(
            ke, cutoff, charges, table, k, to, ways, two, pulls, others, t,
        );
        k = to;
    }
    BothSums { lj: s, coulomb: t }
}

// The rows of a list, in order: Lennard-Jones into `forces`, Coulomb into `others`, each from `sum`.
pub(crate) fn over(
    lj: Lj,
    ke: f64,
    cutoff: f64,
    p: Prepared,
    tables: &SpeciesTables,
    species: &[u32],
    charges: &[f64],
    xs: &[f64],
    table: &[u32],
    forces: &mut [f64],
    others: &mut [f64],
    sum: Sum,
) -> BothSums
    ensures forces_after { held result.lj forces.new ≡ foldl (lj_step lj p (tables_of tables.now) species.now xs.now) (held sum forces.old) (rows table.now) }
    ensures others_after { held result.coulomb others.new ≡ foldl (coulomb_step ke cutoff p charges.now xs.now) (held sum others.old) (rows table.now) }
{
    let mut ways = rows::blank_ways();
    let mut atoms = kept::blank_keys();
    let mut room = kept::first_room(tables, lj);
    let mut two = block::blank_two();
    let mut pulls = block::blank_two();
    by_blocks(
        lj, ke, cutoff, p, tables, species, charges, xs, table, &mut ways, &mut atoms, &mut room,
        &mut two, &mut pulls, forces, others, sum,
    )
}
