// What is asked before an evaluation, in 01's order. Total, and also for the crates above. Every test is made before the first refusal is picked: where
// all is well, all are made in any case.
ghost use Rattle.std.specs.Prelude.{◌≡◌, length};
ghost use Rattle.neighbor_asked.specs.Asked.{first_refusal};
ghost use Rattle.potentials.specs.Calls.{tables_fit};
ghost use Rattle.evaluate.specs.Asked.{terms_fit, lj_ok, coulomb_ok, bond_ok, angle_ok, numbers_ok, bond_rows_asked, angles_named, names_asked, in_turn};
ghost use Rattle.evaluate.specs.Calls.{job_on, asked_of};

use crate::{Molecule, Setting};
use answer::Refusal;
use neighbor::State;
use potentials::coulomb::Coulomb;
use potentials::{Bond, ranged};
use potentials_angle::Angle;
use potentials_pair::Lj;

fn terms_fit(molecule: &Molecule, xs: usize, forces: usize) -> bool
    ensures { let m = molecule.now in result ≡ terms_fit (tables_fit (length m.tables.own_ids.now) (length m.tables.own_params.now) (length m.tables.ids.now) (length m.tables.params.now)) (length m.species.now) (length m.charges.now) (length m.bonds.ends.now) (length m.angles.corners.now) (length m.angles.per_angle.now) xs forces }
{
    potentials::species::tables_fit(&molecule.tables)
        & (molecule.species.len() == xs / 3)
        & (molecule.charges.len() == xs / 3)
        & (molecule.bonds.ends.len() % 2 == 0)
        & (molecule.angles.corners.len() % 3 == 0)
        & (molecule.angles.per_angle.len() % 2 == 0)
        & (forces == xs)
}

fn lj_ok(lj: Option<Lj>) -> bool
    ensures { result ≡ lj_ok lj }
{
    match lj {
        None => true,
        Some(t) => ranged::lj_in_range(t),
    }
}

fn coulomb_ok(coulomb: Option<Coulomb>) -> bool
    ensures { result ≡ coulomb_ok coulomb }
{
    match coulomb {
        None => true,
        Some(t) => ranged::cutoff_in_range(t.cutoff),
    }
}

fn bond_ok(bond: Option<Bond>) -> bool
    ensures { result ≡ bond_ok bond }
{
    match bond {
        None => true,
        Some(t) => ranged::bond_in_range(t),
    }
}

fn angle_ok(angle: Option<Angle>) -> bool
    ensures { result ≡ angle_ok angle }
{
    match angle {
        None => true,
        Some(t) => potentials_angle::ranged::angle_in_range(t),
    }
}

fn numbers_ok(setting: Setting, molecule: &Molecule) -> bool
    ensures { let m = molecule.now in result ≡ numbers_ok setting.lj setting.coulomb setting.bond setting.angle setting.units m.tables.own_params.now m.tables.params.now m.charges.now m.bonds.lengths.now m.bonds.ks.now m.angles.per_angle.now }
{
    let lj = setting.lj;
    let coulomb = setting.coulomb;
    let bond = setting.bond;
    let angle = setting.angle;
    let units = setting.units;
    lj_ok(lj)
        & coulomb_ok(coulomb)
        & bond_ok(bond)
        & angle_ok(angle)
        & virial::ranged::units_in_range(units)
        & ranged::rows_in_range(&molecule.tables)
        & ranged::charges_in_range(molecule.charges)
        & ranged::entries_in_range(molecule.bonds.lengths)
        & ranged::entries_in_range(molecule.bonds.ks)
        & potentials_angle::ranged::per_angle_in_range(molecule.angles.per_angle)
}

// Refusal 4 of a bond.
fn asked_bonds(n: usize, bonds: &[u32]) -> Result<(), Refusal>
    ensures { result ≡ bond_rows_asked n bonds.now }
{
    let row = ranges::rows::first_absent(bonds, n);
    if row < bonds.len() / 2 {
        return Err(Refusal::NotThere { row: row });
    }
    Ok(())
}

// Refusal 4 of an angle.
fn asked_angles(n: usize, angles: &[u32]) -> Result<(), Refusal>
    ensures { result ≡ angles_named n angles.now }
{
    let row = potentials_angle::rows::first_missing(angles, n);
    if row < angles.len() / 3 {
        return Err(Refusal::NotThere { row: row });
    }
    Ok(())
}

// A bond's 4, an angle's; 5 of the exclusions, of the desk's own species, of the house's.
fn asked_names(n: usize, molecule: &Molecule, exclusions: &[u32]) -> Result<(), Refusal>
    ensures { let m = molecule.now in result ≡ names_asked n m.bonds.ends.now m.angles.corners.now exclusions.now m.tables.own_ids.now m.tables.ids.now }
{
    let a = asked_bonds(n, molecule.bonds.ends);
    let b = asked_angles(n, molecule.angles.corners);
    let c = neighbor::asked::asked_table(exclusions);
    let d = potentials::species::asked_order(&molecule.tables);
    neighbor_asked::asked::names_in_turn(a, b, c, d)
}

fn in_turn(
    fits: bool,
    first: Result<(), Refusal>,
    ok: bool,
    kept: Result<(), Refusal>,
    names: Result<(), Refusal>,
) -> Result<(), Refusal>
    ensures { result ≡ in_turn fits first ok kept names }
{
    if !fits {
        return Err(Refusal::Lengths);
    }
    first?;
    if !ok {
        return Err(Refusal::Range);
    }
    kept?;
    names
}

// Refusals 1, 2, 6, 3, 4, 5. `fits` and `inside` are what a step asks besides at 1 and at 3.
pub fn asked(
    fits: bool,
    inside: bool,
    setting: Setting,
    s: State,
    molecule: &Molecule,
    positions: &[f64],
    exclusions: &[u32],
    pairs: &[u32],
    references: &[f64],
    starts: &[u32],
    items: &[u32],
    forces: &[f64],
) -> Result<(), Refusal>
    ensures { result ≡ asked_of fits inside (job_on setting s molecule.now positions.now exclusions.now pairs.now references.now starts.now items.now forces.now) }
{
    let cell = setting.cell;
    let n = positions.len() / 3;
    let fit = terms_fit(molecule, positions.len(), forces.len());
    let first = neighbor::asked::asked_first(
        s,
        cell,
        positions,
        exclusions.len(),
        pairs.len(),
        references.len(),
        items.len(),
    );
    let ok = numbers_ok(setting, molecule);
    let kept = neighbor::asked::asked_kept(s, n, pairs, references);
    let names = asked_names(n, molecule, exclusions);
    in_turn(fits & fit, first, inside & ok, kept, names)
}
