// The range tests of the terms' numbers and tables (01, "Ranges"): refusal 3. Total, and also for the crates above.
ghost use Rattle.std.specs.Prelude.{◌≡◌};
ghost use Rattle.lists.specs.Lists.{every};
ghost use Rattle.potentials.specs.Ranged.{coordinate, depth, cutoff_ok, charge, rows_in_range, lj_in_range, bond_in_range};

use crate::Bond;
use potentials_pair::{Lj, SpeciesTables};

const ENTRY: f64 = cell::ranged::ENTRY;

pub fn cutoff_in_range(cutoff: f64) -> bool
    ensures { result ≡ cutoff_ok cutoff }
{
    ranges::is_between(0.0, ENTRY, cutoff)
}

pub fn lj_in_range(lj: Lj) -> bool
    ensures { result ≡ lj_in_range lj }
{
    ranges::is_between(0.0, 1024.0, lj.epsilon)
        & ranges::is_between(0.0, 1024.0, lj.sigma)
        & cutoff_in_range(lj.cutoff)
}

pub fn bond_in_range(bond: Bond) -> bool
    ensures { result ≡ bond_in_range bond }
{
    ranges::is_within(ENTRY, bond.k) & ranges::is_within(ENTRY, bond.r0)
}

// Epsilons and sigmas.
pub fn params_in_range(params: &[f64]) -> bool
    ensures { result ≡ every depth params.now }
{
    ranges::all_between(0.0, 1024.0, params)
}

// Those of both species tables.
pub fn rows_in_range(tables: &SpeciesTables) -> bool
    ensures { result ≡ rows_in_range tables.now.own_params.now tables.now.params.now }
{
    params_in_range(tables.own_params) & params_in_range(tables.params)
}

pub fn charges_in_range(charges: &[f64]) -> bool
    ensures { result ≡ every charge charges.now }
{
    ranges::all_within(1024.0, charges)
}

// Coordinates, and the numbers of bonds.
pub fn entries_in_range(xs: &[f64]) -> bool
    ensures { result ≡ every coordinate xs.now }
{
    ranges::all_within(ENTRY, xs)
}
