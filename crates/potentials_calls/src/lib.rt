// The public calls of potentials.rs: each tests its arguments, in 01's order, and `potentials` does the work. What each answers and leaves is said there, in
// specs/Calls.antt. A crate of its own, since no crate of the house needs a call, and `potentials` is long to prove.
#![tactic(auto)]

ghost use Rattle.std.specs.Prelude.{◌≡◌};
ghost use Rattle.potentials_pair.specs.Species.{tables_of};
ghost use Rattle.potentials.specs.Calls.{MonatomicSays, UniformSays, argon_of, SpeciesRowSays, SpeciesRowAskedSays, LjPairsSays, LjAllSays, CoulombPairsSays, CoulombAllSays, BondsAllSays};

use answer::Refusal;
use cell::Lattice;
use potentials::{Bond, BondRows, kernel, ranged};
use potentials_pair::{Lj, SpeciesTables};
use virial::{Sum, Units};

mod asked;
mod every;

// A single species.
pub fn monatomic(epsilon: f64, sigma: f64, cutoff: f64) -> Result<Lj, Refusal>
    ensures { MonatomicSays epsilon sigma cutoff result }
{
    let lj = kernel::monatomic(epsilon, sigma, cutoff);
    if ranged::lj_in_range(lj) {
        return Ok(lj);
    }
    Err(Refusal::Range)
}

pub fn argon() -> Lj
    ensures { result ≡ argon_of }
{
    kernel::monatomic(0.0103, 3.4, 2.5 * 3.4)
}

// The same for each bond.
pub fn uniform(k: f64, r0: f64) -> Result<Bond, Refusal>
    ensures { UniformSays k r0 result }
{
    let bond = Bond { k: k, r0: r0 };
    if ranged::bond_in_range(bond) {
        return Ok(bond);
    }
    Err(Refusal::Range)
}

// Lennard-Jones over the listed pairs. `species` is an id for each atom.
pub fn lj_pairs(
    lj: Lj,
    cell: Option<Lattice>,
    tables: &SpeciesTables,
    species: &[u32],
    positions: &[f64],
    pairs: &[u32],
    forces: &mut [f64],
) -> Result<Sum, Refusal>
    ensures { LjPairsSays lj cell (tables_of tables.now) species.now positions.now pairs.now forces.old result forces.new }
{
    let absent = ranges::rows::first_absent(pairs, positions.len() / 3);
    asked::lj_asked(
        lj,
        cell,
        tables,
        species.len(),
        positions,
        forces.len(),
        pairs.len(),
        absent,
    )?;
    Ok(kernel::lj_pairs(lj, cell, tables, species, positions, pairs, forces))
}

// The same over every pair, i, then j, rising.
pub fn lj_all(
    lj: Lj,
    cell: Option<Lattice>,
    tables: &SpeciesTables,
    species: &[u32],
    positions: &[f64],
    forces: &mut [f64],
) -> Result<Sum, Refusal>
    ensures { LjAllSays lj cell (tables_of tables.now) species.now positions.now forces.old result forces.new }
{
    asked::lj_asked(
        lj,
        cell,
        tables,
        species.len(),
        positions,
        forces.len(),
        0,
        0,
    )?;
    Ok(every::lj_all(lj, cell, tables, species, positions, forces))
}

// The row of a species, two floats: a part of the desk's own table where it has the species, else of the house's, else empty. Nothing is copied. Empty where
// `species_row_asked` refuses.
pub fn species_row<'a>(tables: &SpeciesTables<'_, 'a>, species: u32) -> &'a [f64]
    ensures { SpeciesRowSays (tables_of tables.now) species result.now }
{
    let a = asked::rows_asked(tables);
    if let Err(_) = a {
        return &tables.params[0..0];
    }
    potentials_pair::species::row_of(tables, species)
}

// Refusals 1, 3, 5 of both tables.
pub fn species_row_asked(tables: &SpeciesTables, species: u32) -> Result<(), Refusal>
    ensures { SpeciesRowAskedSays (tables_of tables.now) result }
{
    asked::rows_asked(tables)
}

// Coulomb over the listed pairs.
pub fn coulomb_pairs(
    units: Units,
    cutoff: f64,
    cell: Option<Lattice>,
    charges: &[f64],
    positions: &[f64],
    pairs: &[u32],
    forces: &mut [f64],
) -> Result<Sum, Refusal>
    ensures { CoulombPairsSays units cutoff cell charges.now positions.now pairs.now forces.old result forces.new }
{
    let absent = ranges::rows::first_absent(pairs, positions.len() / 3);
    asked::coulomb_asked(
        units,
        cutoff,
        cell,
        charges,
        positions,
        forces.len(),
        pairs.len(),
        absent,
    )?;
    Ok(kernel::coulomb_pairs(units, cutoff, cell, charges, positions, pairs, forces))
}

// The same over every pair, i, then j, rising.
pub fn coulomb_all(
    units: Units,
    cutoff: f64,
    cell: Option<Lattice>,
    charges: &[f64],
    positions: &[f64],
    forces: &mut [f64],
) -> Result<Sum, Refusal>
    ensures { CoulombAllSays units cutoff cell charges.now positions.now forces.old result forces.new }
{
    asked::coulomb_asked(units, cutoff, cell, charges, positions, forces.len(), 0, 0)?;
    Ok(every::coulomb_all(units, cutoff, cell, charges, positions, forces))
}

// Harmonic bonds; one past the end of `lengths` or `ks` takes the number of `bond`.
pub fn bonds_all(
    bond: Bond,
    cell: Option<Lattice>,
    bonds: &BondRows,
    positions: &[f64],
    forces: &mut [f64],
) -> Result<Sum, Refusal>
    ensures { BondsAllSays bond cell bonds.now.ends.now bonds.now.lengths.now bonds.now.ks.now positions.now forces.old result forces.new }
{
    let absent = ranges::rows::first_absent(bonds.ends, positions.len() / 3);
    asked::bonds_asked(bond, cell, bonds, positions, forces.len(), absent)?;
    Ok(kernel::bonds_all(bond, cell, bonds, positions, forces))
}
