// The terms over pairs (potentials.rs), and the evaluator.
ghost use Rattle.evaluate.specs.Calls.{EvaluateLists, EvaluateSays, job_of};
ghost use Rattle.potentials_pair.specs.Species.{tables};
ghost use Rattle.field_structs.specs.Flat.{flat_bond_answer, flat_evaluated, flat_lj, flat_lj_answer, flat_summed};
ghost use Rattle.field_structs.specs.Shown.{Shown};
ghost use Rattle.field_structs.specs.Taken.{cell_of, lj_of, setting_of, state_of};
ghost use Rattle.potentials.specs.Calls.{BondsAllSays, CoulombAllSays, CoulombPairsSays, LjAllSays, LjPairsSays, MonatomicSays, UniformSays, argon_of};
ghost use Rattle.std.specs.Prelude.{◌≡◌};

use evaluate::Molecule;
use field_structs::{
    FlatBondAnswer, FlatCell, FlatEvaluated, FlatLj, FlatLjAnswer, FlatSetting, FlatState,
    FlatSummed,
};
use potentials::{Bond, BondRows};
use potentials_angle::AngleRows;
use potentials_pair::SpeciesTables;
use virial::Units;

// Lennard-Jones numbers of a single species, shifted. Refusal 3.
#[unsafe(no_mangle)]
pub extern "C" fn tyn_monatomic(epsilon: f64, sigma: f64, cutoff: f64) -> FlatLjAnswer
    ensures { Shown flat_lj_answer (MonatomicSays epsilon sigma cutoff) result }
{
    potentials_calls::monatomic(epsilon, sigma, cutoff).into()
}

// Lennard-Jones numbers of argon. No refusal.
#[unsafe(no_mangle)]
pub extern "C" fn tyn_argon() -> FlatLj
    ensures { result ≡ flat_lj argon_of }
{
    potentials_calls::argon().into()
}

// Bond numbers, the same for each bond. Refusal 3.
#[unsafe(no_mangle)]
pub extern "C" fn tyn_uniform(k: f64, r0: f64) -> FlatBondAnswer
    ensures { Shown flat_bond_answer (UniformSays k r0) result }
{
    potentials_calls::uniform(k, r0).into()
}

// Lennard-Jones over the listed pairs: forces overwritten, from zero. own_ids and ids are the species that own_params and params have epsilon
// and sigma of, a desk's own table and the house's; a species' row is the own one where there is one. species is an id an atom. Refusals 1, 2, 3, 4, 5
// (place 1 for the house's ids).
#[unsafe(no_mangle)]
pub extern "C" fn tyn_lj_pairs(
    lj: FlatLj,
    cell: FlatCell,
    own_ids: &[u32],
    own_params: &[f64],
    ids: &[u32],
    params: &[f64],
    species: &[u32],
    positions: &[f64],
    pairs: &[u32],
    forces: &mut [f64],
) -> FlatSummed
    ensures { Shown flat_summed (λ a. LjPairsSays (lj_of lj) (cell_of cell) (tables own_ids.now own_params.now ids.now params.now) species.now positions.now pairs.now forces.old a forces.new) result }
{
    let tables = SpeciesTables {
        own_ids,
        own_params,
        ids,
        params,
    };
    potentials_calls::lj_pairs(
        lj.into(),
        cell.into(),
        &tables,
        species,
        positions,
        pairs,
        forces,
    )
    .into()
}

// Lennard-Jones over every pair, i, then j, rising. Refusals 1, 2, 3, 5.
#[unsafe(no_mangle)]
pub extern "C" fn tyn_lj_all(
    lj: FlatLj,
    cell: FlatCell,
    own_ids: &[u32],
    own_params: &[f64],
    ids: &[u32],
    params: &[f64],
    species: &[u32],
    positions: &[f64],
    forces: &mut [f64],
) -> FlatSummed
    ensures { Shown flat_summed (λ a. LjAllSays (lj_of lj) (cell_of cell) (tables own_ids.now own_params.now ids.now params.now) species.now positions.now forces.old a forces.new) result }
{
    let tables = SpeciesTables {
        own_ids,
        own_params,
        ids,
        params,
    };
    potentials_calls::lj_all(lj.into(), cell.into(), &tables, species, positions, forces).into()
}

// Coulomb over the listed pairs: forces overwritten, from zero. Refusals 1, 2, 3, 4.
#[unsafe(no_mangle)]
pub extern "C" fn tyn_coulomb_pairs(
    units: Units,
    cutoff: f64,
    cell: FlatCell,
    charges: &[f64],
    positions: &[f64],
    pairs: &[u32],
    forces: &mut [f64],
) -> FlatSummed
    ensures { Shown flat_summed (λ a. CoulombPairsSays units cutoff (cell_of cell) charges.now positions.now pairs.now forces.old a forces.new) result }
{
    potentials_calls::coulomb_pairs(
        units,
        cutoff,
        cell.into(),
        charges,
        positions,
        pairs,
        forces,
    )
    .into()
}

// Coulomb over every pair, i, then j, rising. Refusals 1, 2, 3.
#[unsafe(no_mangle)]
pub extern "C" fn tyn_coulomb_all(
    units: Units,
    cutoff: f64,
    cell: FlatCell,
    charges: &[f64],
    positions: &[f64],
    forces: &mut [f64],
) -> FlatSummed
    ensures { Shown flat_summed (λ a. CoulombAllSays units cutoff (cell_of cell) charges.now positions.now forces.old a forces.new) result }
{
    potentials_calls::coulomb_all(units, cutoff, cell.into(), charges, positions, forces).into()
}

// Harmonic bonds, two atoms a row: forces overwritten, from zero. A bond past the end of lengths or ks takes bond's own number. Refusals 1, 2, 3, 4.
#[unsafe(no_mangle)]
pub extern "C" fn tyn_bonds_all(
    bond: Bond,
    cell: FlatCell,
    bonds: &[u32],
    lengths: &[f64],
    ks: &[f64],
    positions: &[f64],
    forces: &mut [f64],
) -> FlatSummed
    ensures { Shown flat_summed (λ a. BondsAllSays bond (cell_of cell) bonds.now lengths.now ks.now positions.now forces.old a forces.new) result }
{
    let rows = BondRows {
        ends: bonds,
        lengths,
        ks,
    };
    potentials_calls::bonds_all(bond, cell.into(), &rows, positions, forces).into()
}

// The list brought up to date, then each present term, Lennard-Jones, Coulomb, bonds, angles, merged in this order into zero. Refusals 1, 2, 6, 3, 4, 5, 7, 8.
#[unsafe(no_mangle)]
pub extern "C" fn tyn_evaluate(
    setting: FlatSetting,
    s: FlatState,
    own_ids: &[u32],
    own_params: &[f64],
    ids: &[u32],
    params: &[f64],
    species: &[u32],
    charges: &[f64],
    bonds: &[u32],
    lengths: &[f64],
    ks: &[f64],
    angles: &[u32],
    per_angle: &[f64],
    positions: &[f64],
    exclusions: &[u32],
    pairs: &mut [u32],
    references: &mut [f64],
    starts: &mut [u32],
    items: &mut [u32],
    forces: &mut [f64],
) -> FlatEvaluated
    ensures { let j = job_of (setting_of setting) (state_of s) (tables own_ids.now own_params.now ids.now params.now) species.now charges.now bonds.now lengths.now ks.now angles.now per_angle.now positions.now exclusions.now pairs.old references.old starts.old items.old forces.old in Shown flat_evaluated (λ a. EvaluateSays j a pairs.new references.new starts.new items.new forces.new × EvaluateLists j a pairs.new) result }
{
    let molecule = Molecule {
        tables: SpeciesTables {
            own_ids,
            own_params,
            ids,
            params,
        },
        species,
        charges,
        bonds: BondRows {
            ends: bonds,
            lengths,
            ks,
        },
        angles: AngleRows {
            corners: angles,
            per_angle,
        },
    };
    evaluate::evaluate(
        setting.into(),
        s.into(),
        &molecule,
        positions,
        exclusions,
        pairs,
        references,
        starts,
        items,
        forces,
    )
    .into()
}
