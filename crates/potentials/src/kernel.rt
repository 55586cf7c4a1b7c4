// The work for the crates above: total on every number, index and length, no range is tested, and a pair that names no atom is passed over. The forces are
// overwritten with the term's own, from zero. No public call.
ghost use Rattle.std.specs.Prelude.{◌≡◌, length};
ghost use Rattle.lists.specs.Lists.{rows};
ghost use Rattle.potentials_pair.specs.Species.{tables_of, look_by};
ghost use Rattle.potentials_pair.specs.Pull.{held};
ghost use Rattle.potentials.specs.Terms.{lj_over, coulomb_over, bonds_over};
ghost use Rattle.potentials.specs.Calls.{monatomic_of};

use crate::{Bond, BondRows, BothSums};
use cell::Lattice;
use potentials_pair::{Lj, Mixing, SpeciesTables};
use virial::{Sum, Units};

pub fn monatomic(epsilon: f64, sigma: f64, cutoff: f64) -> Lj
    ensures { result ≡ monatomic_of epsilon sigma cutoff }
{
    Lj {
        epsilon: epsilon,
        sigma: sigma,
        cutoff: cutoff,
        shift: true,
        rule: Mixing::HalfSum,
    }
}

// The lookup is by halving: over ascending ids it is `look_of` (pulls, `looks-all`).
pub fn lj_pairs(
    lj: Lj,
    cell: Option<Lattice>,
    tables: &SpeciesTables,
    species: &[u32],
    positions: &[f64],
    pairs: &[u32],
    forces: &mut [f64],
) -> Sum
    ensures { held result forces.new ≡ lj_over (look_by (tables_of tables.now) lj) lj cell species.now positions.now (length forces.old) (rows pairs.now) }
{
    virial::kernel::clear(forces);
    let p = cell_prepared::prepare(cell);
    let sum = virial::kernel::zero();
    crate::lennard_jones::over(lj, p, tables, species, positions, pairs, forces, sum)
}

pub fn coulomb_pairs(
    units: Units,
    cutoff: f64,
    cell: Option<Lattice>,
    charges: &[f64],
    positions: &[f64],
    pairs: &[u32],
    forces: &mut [f64],
) -> Sum
    ensures { held result forces.new ≡ coulomb_over units.ke_coulomb cutoff cell charges.now positions.now (length forces.old) (rows pairs.now) }
{
    virial::kernel::clear(forces);
    let p = cell_prepared::prepare(cell);
    let sum = virial::kernel::zero();
    crate::coulomb::over(
        units.ke_coulomb,
        cutoff,
        p,
        charges,
        positions,
        pairs,
        forces,
        sum,
    )
}

// `lj_pairs` into `forces` and `coulomb_pairs` into `others`, by one walk.
pub fn both_pairs(
    lj: Lj,
    units: Units,
    cutoff: f64,
    cell: Option<Lattice>,
    tables: &SpeciesTables,
    species: &[u32],
    charges: &[f64],
    positions: &[f64],
    pairs: &[u32],
    forces: &mut [f64],
    others: &mut [f64],
) -> BothSums
    ensures forces_after { held result.lj forces.new ≡ lj_over (look_by (tables_of tables.now) lj) lj cell species.now positions.now (length forces.old) (rows pairs.now) }
    ensures others_after { held result.coulomb others.new ≡ coulomb_over units.ke_coulomb cutoff cell charges.now positions.now (length others.old) (rows pairs.now) }
{
    virial::kernel::clear(forces);
    virial::kernel::clear(others);
    let p = cell_prepared::prepare(cell);
    let sum = virial::kernel::zero();
    crate::both::over(
        lj,
        units.ke_coulomb,
        cutoff,
        p,
        tables,
        species,
        charges,
        positions,
        pairs,
        forces,
        others,
        sum,
    )
}

pub fn bonds_all(
    bond: Bond,
    cell: Option<Lattice>,
    bonds: &BondRows,
    positions: &[f64],
    forces: &mut [f64],
) -> Sum
    ensures { held result forces.new ≡ bonds_over bond cell bonds.now.ends.now bonds.now.lengths.now bonds.now.ks.now positions.now (length forces.old) }
{
    virial::kernel::clear(forces);
    let p = cell_prepared::prepare(cell);
    let sum = virial::kernel::zero();
    crate::bonds::over(bond, p, bonds, positions, forces, sum)
}
