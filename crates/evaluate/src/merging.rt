// One term after the other: each from zero in the scratch, then merged. An absent term is not merged, so that it adds not even +0. Lennard-Jones and Coulomb,
// where both are present, by one walk over the pairs.
ghost use Rattle.std.specs.Prelude.{◌≡◌, length};
ghost use Rattle.lists.specs.Lists.{rows};
ghost use Rattle.potentials_pair.specs.Species.{tables_of, look_by};
ghost use Rattle.virial.specs.Virial.{zero_forces, merged_forces};
ghost use Rattle.potentials_pair.specs.Pull.{held};
ghost use Rattle.potentials.specs.Terms.{lj_over, coulomb_over};
ghost use Rattle.evaluate.specs.Terms.{terms_of, lj_gives, coulomb_gives, bond_gives, angle_gives, merged, merged_into};
ghost use Rattle.evaluate.specs.Steps.{terms_over};

use crate::{Molecule, Setting};
use cell::Lattice;
use potentials::{Bond, BondRows};
use potentials_angle::{Angle, AngleRows};
use potentials_pair::Lj;
use virial::Sum;

// A term's own sum and forces, added.
fn merge(sum: Sum, forces: &mut [f64], own: Sum, added: &[f64]) -> Sum
    ensures { held result forces.new ≡ merged (held sum forces.old) (held own added.now) }
{
    virial::kernel::merge_forces(forces, added);
    virial::kernel::merge_sum(sum, own)
}

fn with_lj(
    scratch: &mut [f64],
    forces: &mut [f64],
    sum: Sum,
    setting: Setting,
    molecule: &Molecule,
    xs: &[f64],
    pairs: &[u32],
) -> Sum
    ensures { held result forces.new ≡ merged_into (held sum forces.old) (lj_gives (look_by (tables_of molecule.now.tables)) setting.lj setting.cell molecule.now.species.now xs.now (length scratch.old) (rows pairs.now)) }
{
    let Some(lj) = setting.lj else {
        return sum;
    };
    let own = potentials::kernel::lj_pairs(
        lj,
        setting.cell,
        &molecule.tables,
        molecule.species,
        xs,
        pairs,
        scratch,
    );
    merge(sum, forces, own, scratch)
}

fn with_coulomb(
    scratch: &mut [f64],
    forces: &mut [f64],
    sum: Sum,
    setting: Setting,
    molecule: &Molecule,
    xs: &[f64],
    pairs: &[u32],
) -> Sum
    ensures { held result forces.new ≡ merged_into (held sum forces.old) (coulomb_gives setting.coulomb setting.units.ke_coulomb setting.cell molecule.now.charges.now xs.now (length scratch.old) (rows pairs.now)) }
{
    let Some(direct) = setting.coulomb else {
        return sum;
    };
    let own = potentials::kernel::coulomb_pairs(
        setting.units,
        direct.cutoff,
        setting.cell,
        molecule.charges,
        xs,
        pairs,
        scratch,
    );
    merge(sum, forces, own, scratch)
}

// The forces added to zero where they lie: -0 becomes +0.
fn onto_zero(forces: &mut [f64])
    ensures { forces.new ≡ merged_forces (zero_forces (length forces.old)) forces.old }
{
    for force in forces.iter_mut() {
        *force = 0.0 + *force;
    }
}

// Both by one walk: Lennard-Jones' own forces lie where the merged ones do.
fn at_once(
    scratch: &mut [f64],
    forces: &mut [f64],
    sum: Sum,
    lj: Lj,
    cutoff: f64,
    setting: Setting,
    molecule: &Molecule,
    xs: &[f64],
    pairs: &[u32],
) -> Sum
    ensures { held result forces.new ≡ merged (merged (held sum (zero_forces (length forces.old))) (lj_over (look_by (tables_of molecule.now.tables) lj) lj setting.cell molecule.now.species.now xs.now (length forces.old) (rows pairs.now))) (coulomb_over setting.units.ke_coulomb cutoff setting.cell molecule.now.charges.now xs.now (length scratch.old) (rows pairs.now)) }
{
    let own = potentials::kernel::both_pairs(
        lj,
        setting.units,
        cutoff,
        setting.cell,
        &molecule.tables,
        molecule.species,
        molecule.charges,
        xs,
        pairs,
        forces,
        scratch,
    );
    onto_zero(forces);
    let a = virial::kernel::merge_sum(sum, own.lj);
    merge(a, forces, own.coulomb, scratch)
}

// One after the other.
fn one_by_one(
    scratch: &mut [f64],
    forces: &mut [f64],
    sum: Sum,
    setting: Setting,
    molecule: &Molecule,
    xs: &[f64],
    pairs: &[u32],
) -> Sum
    ensures { held result forces.new ≡ merged_into (merged_into (held sum (zero_forces (length forces.old))) (lj_gives (look_by (tables_of molecule.now.tables)) setting.lj setting.cell molecule.now.species.now xs.now (length scratch.old) (rows pairs.now))) (coulomb_gives setting.coulomb setting.units.ke_coulomb setting.cell molecule.now.charges.now xs.now (length scratch.old) (rows pairs.now)) }
{
    virial::kernel::clear(forces);
    let a = with_lj(scratch, forces, sum, setting, molecule, xs, pairs);
    with_coulomb(scratch, forces, a, setting, molecule, xs, pairs)
}

// Lennard-Jones and Coulomb, merged in this order into zero forces.
fn with_pairs(
    scratch: &mut [f64],
    forces: &mut [f64],
    sum: Sum,
    setting: Setting,
    molecule: &Molecule,
    xs: &[f64],
    pairs: &[u32],
) -> Sum
    ensures { held result forces.new ≡ merged_into (merged_into (held sum (zero_forces (length forces.old))) (lj_gives (look_by (tables_of molecule.now.tables)) setting.lj setting.cell molecule.now.species.now xs.now (length scratch.old) (rows pairs.now))) (coulomb_gives setting.coulomb setting.units.ke_coulomb setting.cell molecule.now.charges.now xs.now (length scratch.old) (rows pairs.now)) }
{
    let Some(lj) = setting.lj else {
        return one_by_one(scratch, forces, sum, setting, molecule, xs, pairs);
    };
    let Some(direct) = setting.coulomb else {
        return one_by_one(scratch, forces, sum, setting, molecule, xs, pairs);
    };
    if forces.len() != scratch.len() {
        return one_by_one(scratch, forces, sum, setting, molecule, xs, pairs);
    }
    at_once(
        scratch,
        forces,
        sum,
        lj,
        direct.cutoff,
        setting,
        molecule,
        xs,
        pairs,
    )
}

fn with_bonds(
    scratch: &mut [f64],
    forces: &mut [f64],
    sum: Sum,
    bond: Option<Bond>,
    cell: Option<Lattice>,
    bonds: &BondRows,
    xs: &[f64],
) -> Sum
    ensures { held result forces.new ≡ merged_into (held sum forces.old) (bond_gives bond cell bonds.now.ends.now bonds.now.lengths.now bonds.now.ks.now xs.now (length scratch.old)) }
{
    let Some(t) = bond else {
        return sum;
    };
    let own = potentials::kernel::bonds_all(t, cell, bonds, xs, scratch);
    merge(sum, forces, own, scratch)
}

fn with_angles(
    scratch: &mut [f64],
    forces: &mut [f64],
    sum: Sum,
    angle: Option<Angle>,
    cell: Option<Lattice>,
    angles: &AngleRows,
    xs: &[f64],
) -> Sum
    ensures { held result forces.new ≡ merged_into (held sum forces.old) (angle_gives angle cell angles.now.corners.now angles.now.per_angle.now xs.now (length scratch.old)) }
{
    let Some(t) = angle else {
        return sum;
    };
    let own = potentials_angle::kernel::angles_all(t, cell, angles, xs, scratch);
    merge(sum, forces, own, scratch)
}

// The present terms, merged in order into zero.
pub(crate) fn all(
    scratch: &mut [f64],
    setting: Setting,
    molecule: &Molecule,
    xs: &[f64],
    pairs: &[u32],
    forces: &mut [f64],
) -> Sum
    ensures { held result forces.new ≡ terms_over (terms_of setting molecule.now) setting.cell xs.now pairs.now (length scratch.old) (length forces.old) }
{
    let bond = setting.bond;
    let angle = setting.angle;
    let cell = setting.cell;
    let a = virial::kernel::zero();
    let b = with_pairs(scratch, forces, a, setting, molecule, xs, pairs);
    let c = with_bonds(scratch, forces, b, bond, cell, &molecule.bonds, xs);
    with_angles(scratch, forces, c, angle, cell, &molecule.angles, xs)
}
