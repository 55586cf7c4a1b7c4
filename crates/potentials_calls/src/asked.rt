// What is tested before a term is computed: refusals 1 to 5, in their order.
ghost use Rattle.std.specs.Prelude.{◌≡◌, length};
ghost use Rattle.potentials_pair.specs.Species.{tables_of};
ghost use Rattle.potentials.specs.Calls.{asked_by, rows_asked, lj_fits, coulomb_fits, bonds_fit, lj_ranges, coulomb_ranges, bonds_ranges, lj_asked, coulomb_asked, bonds_asked};

use answer::Refusal;
use cell::Lattice;
use potentials::{Bond, BondRows, ranged, species};
use potentials_pair::{Lj, SpeciesTables};
use virial::Units;

// `absent` is the first of the rows that names an atom not there.
fn asked(
    fits: bool,
    atoms: usize,
    in_range: bool,
    rows: usize,
    absent: usize,
    order: Result<(), Refusal>,
) -> Result<(), Refusal>
    ensures { result ≡ asked_by fits atoms in_range rows absent order }
{
    if !fits {
        return Err(Refusal::Lengths);
    }
    if 16384 < atoms {
        return Err(Refusal::TooMany { atoms: atoms });
    }
    if !in_range {
        return Err(Refusal::Range);
    }
    if absent < rows {
        return Err(Refusal::NotThere { row: absent });
    }
    order
}

fn lj_fits(tables: bool, species: usize, xs: usize, pairs: usize, forces: usize) -> bool
    ensures { result ≡ lj_fits tables species xs pairs forces }
{
    (xs % 3 == 0) & tables & (species == xs / 3) & (pairs % 2 == 0) & (forces == xs)
}

fn coulomb_fits(charges: usize, xs: usize, pairs: usize, forces: usize) -> bool
    ensures { result ≡ coulomb_fits charges xs pairs forces }
{
    (xs % 3 == 0) & (charges == xs / 3) & (pairs % 2 == 0) & (forces == xs)
}

fn bonds_fit(xs: usize, bonds: usize, forces: usize) -> bool
    ensures { result ≡ bonds_fit xs bonds forces }
{
    (xs % 3 == 0) & (bonds % 2 == 0) & (forces == xs)
}

fn lj_ranges(lj: Lj, cell: Option<Lattice>, tables: &SpeciesTables, xs: &[f64]) -> bool
    ensures { result ≡ lj_ranges lj cell tables.now.own_params.now tables.now.params.now xs.now }
{
    ranged::lj_in_range(lj)
        & cell::ranged::cell_in_range(cell)
        & ranged::rows_in_range(tables)
        & ranged::entries_in_range(xs)
}

fn coulomb_ranges(
    units: Units,
    cutoff: f64,
    cell: Option<Lattice>,
    charges: &[f64],
    xs: &[f64],
) -> bool
    ensures { result ≡ coulomb_ranges units cutoff cell charges.now xs.now }
{
    virial::ranged::units_in_range(units)
        & ranged::cutoff_in_range(cutoff)
        & cell::ranged::cell_in_range(cell)
        & ranged::charges_in_range(charges)
        & ranged::entries_in_range(xs)
}

fn bonds_ranges(bond: Bond, cell: Option<Lattice>, bonds: &BondRows, xs: &[f64]) -> bool
    ensures { result ≡ bonds_ranges bond cell bonds.now.lengths.now bonds.now.ks.now xs.now }
{
    ranged::bond_in_range(bond)
        & cell::ranged::cell_in_range(cell)
        & ranged::entries_in_range(bonds.lengths)
        & ranged::entries_in_range(bonds.ks)
        & ranged::entries_in_range(xs)
}

pub(crate) fn lj_asked(
    lj: Lj,
    cell: Option<Lattice>,
    tables: &SpeciesTables,
    species: usize,
    xs: &[f64],
    forces: usize,
    pairs: usize,
    absent: usize,
) -> Result<(), Refusal>
    ensures { result ≡ lj_asked lj cell (tables_of tables.now) species xs.now forces pairs absent }
{
    let rows_fit = species::tables_fit(tables);
    let fits = lj_fits(rows_fit, species, xs.len(), pairs, forces);
    let in_range = lj_ranges(lj, cell, tables, xs);
    let order = species::asked_order(tables);
    asked(fits, xs.len() / 3, in_range, pairs / 2, absent, order)
}

// Refusals 1, 3, 5 of the tables alone.
pub(crate) fn rows_asked(tables: &SpeciesTables) -> Result<(), Refusal>
    ensures { result ≡ rows_asked (tables_of tables.now) }
{
    let fits = species::tables_fit(tables);
    let in_range = ranged::rows_in_range(tables);
    let order = species::asked_order(tables);
    asked(fits, 0, in_range, 0, 0, order)
}

pub(crate) fn coulomb_asked(
    units: Units,
    cutoff: f64,
    cell: Option<Lattice>,
    charges: &[f64],
    xs: &[f64],
    forces: usize,
    pairs: usize,
    absent: usize,
) -> Result<(), Refusal>
    ensures { result ≡ coulomb_asked units cutoff cell charges.now xs.now forces pairs absent }
{
    let fits = coulomb_fits(charges.len(), xs.len(), pairs, forces);
    let in_range = coulomb_ranges(units, cutoff, cell, charges, xs);
    asked(fits, xs.len() / 3, in_range, pairs / 2, absent, Ok(()))
}

pub(crate) fn bonds_asked(
    bond: Bond,
    cell: Option<Lattice>,
    bonds: &BondRows,
    xs: &[f64],
    forces: usize,
    absent: usize,
) -> Result<(), Refusal>
    ensures { result ≡ bonds_asked bond cell (length bonds.now.ends.now) bonds.now.lengths.now bonds.now.ks.now xs.now forces absent }
{
    let fits = bonds_fit(xs.len(), bonds.ends.len(), forces);
    let in_range = bonds_ranges(bond, cell, bonds, xs);
    asked(
        fits,
        xs.len() / 3,
        in_range,
        bonds.ends.len() / 2,
        absent,
        Ok(()),
    )
}
