// What is asked before anything is moved, in 01's order.
ghost use Rattle.std.specs.Prelude.{◌≡◌, ◌&&◌};
ghost use Rattle.lists.specs.Lists.{every};
ghost use Rattle.strike.specs.Calls.{atoms, links, atoms_fit, links_fit, is_mark, links_asked, strike_asked, atom_in_range, put_asked};

use crate::NewAtom;
use answer::Refusal;
use cell::ranged;

// Refusal 1 of the atoms' tables; the arguments are lengths.
fn atoms_fit(
    positions: usize,
    velocities: usize,
    masses: usize,
    charges: usize,
    species: usize,
) -> bool
    ensures { result ≡ atoms_fit positions velocities masses charges species }
{
    (positions % 3 == 0)
        & (velocities == positions)
        & (masses == positions / 3)
        & (charges == positions / 3)
        & (species == positions / 3)
}

// Refusal 1 of the tables that name them.
fn links_fit(bonds: usize, angles: usize, per_angle: usize, exclusions: usize) -> bool
    ensures { result ≡ links_fit bonds angles per_angle exclusions }
{
    (bonds % 2 == 0) & (angles % 3 == 0) & (per_angle % 2 == 0) & (exclusions % 2 == 0)
}

// Refusal 3 does not apply: each mark is 0 or 1.
fn are_marks(marks: &[u32]) -> bool
    ensures { result ≡ every is_mark marks.now }
{
    for mark in marks {
        if 1 < *mark {
            return false;
        }
    }
    true
}

// Refusals 4 and 5.
fn names(
    n: usize,
    bonds: &[u32],
    lengths: &[f64],
    ks: &[f64],
    angles: &[u32],
    per_angle: &[f64],
    exclusions: &[u32],
) -> Result<(), Refusal>
    ensures { result ≡ links_asked n (links bonds.now lengths.now ks.now angles.now per_angle.now exclusions.now) }
{
    let bond = ranges::rows::first_absent(bonds, n);
    if bond < bonds.len() / 2 {
        return Err(Refusal::NotThere { row: bond });
    }
    let angle = potentials_angle::rows::first_missing(angles, n);
    if angle < angles.len() / 3 {
        return Err(Refusal::NotThere { row: angle });
    }
    neighbor::asked::asked_table(exclusions)
}

// Refusals 1, 2, 3, 4, 5 of `strike`.
pub(crate) fn strike(
    marks: &[u32],
    positions: &[f64],
    velocities: &[f64],
    masses: &[f64],
    charges: &[f64],
    species: &[u32],
    bonds: &[u32],
    lengths: &[f64],
    ks: &[f64],
    angles: &[u32],
    per_angle: &[f64],
    exclusions: &[u32],
) -> Result<(), Refusal>
    ensures { result ≡ strike_asked marks.now (atoms positions.now velocities.now masses.now charges.now species.now) (links bonds.now lengths.now ks.now angles.now per_angle.now exclusions.now) }
{
    let n = positions.len() / 3;
    let fit = (marks.len() == n)
        & atoms_fit(
            positions.len(),
            velocities.len(),
            masses.len(),
            charges.len(),
            species.len(),
        )
        & links_fit(bonds.len(), angles.len(), per_angle.len(), exclusions.len());
    if !fit {
        return Err(Refusal::Lengths);
    }
    if 16384 < n {
        return Err(Refusal::TooMany { atoms: n });
    }
    if !are_marks(marks) {
        return Err(Refusal::Range);
    }
    names(n, bonds, lengths, ks, angles, per_angle, exclusions)
}

fn atom_in_range(a: NewAtom) -> bool
    ensures { result ≡ atom_in_range a }
{
    let position = a.position;
    let velocity = a.velocity;
    ranged::vec_within(ranged::ENTRY, position)
        & ranged::vec_within(ranged::ENTRY, velocity)
        & ranges::is_between(0.0009765625, 1048576.0, a.mass)
        & ranges::is_within(1024.0, a.charge)
}

// Refusals 1, 2, 3 of `put`.
pub(crate) fn put(
    count: u32,
    new: NewAtom,
    positions: &[f64],
    velocities: &[f64],
    masses: &[f64],
    charges: &[f64],
    species: &[u32],
) -> Result<(), Refusal>
    ensures { result ≡ put_asked count new (atoms positions.now velocities.now masses.now charges.now species.now) }
{
    let at = count as usize;
    if !atoms_fit(
        positions.len(),
        velocities.len(),
        masses.len(),
        charges.len(),
        species.len(),
    ) {
        return Err(Refusal::Lengths);
    }
    if positions.len() / 3 <= at {
        return Err(Refusal::Lengths);
    }
    if 16384 < at + 1 {
        return Err(Refusal::TooMany { atoms: at + 1 });
    }
    if !atom_in_range(new) {
        return Err(Refusal::Range);
    }
    Ok(())
}
