// What is tested before the term is computed: refusals 1 to 4, in their order.
ghost use Rattle.std.specs.Prelude.{◌≡◌, Ok, length};
ghost use Rattle.potentials.specs.Calls.{asked_by};
ghost use Rattle.potentials_angle.specs.Calls.{angles_fit, angles_ranges, angles_asked};

use crate::{Angle, AngleRows, ranged};
use answer::Refusal;
use cell::Lattice;

// `missing` is the first of the rows that names an atom not there.
fn in_turn(
    fits: bool,
    atoms: usize,
    in_range: bool,
    rows: usize,
    missing: usize,
) -> Result<(), Refusal>
    ensures { result ≡ asked_by fits atoms in_range rows missing (Ok tt) }
{
    if !fits {
        return Err(Refusal::Lengths);
    }
    if 16384 < atoms {
        return Err(Refusal::TooMany { atoms: atoms });
    }
    if !in_range {
        return Err(Refusal::Range);
    }
    if missing < rows {
        return Err(Refusal::NotThere { row: missing });
    }
    Ok(())
}

fn fits(angles: usize, per_angle: usize, xs: usize, forces: usize) -> bool
    ensures { result ≡ angles_fit angles per_angle xs forces }
{
    (xs % 3 == 0) & (angles % 3 == 0) & (per_angle % 2 == 0) & (forces == xs)
}

fn in_range(angle: Angle, cell: Option<Lattice>, per_angle: &[f64], xs: &[f64]) -> bool
    ensures { result ≡ angles_ranges angle cell per_angle.now xs.now }
{
    ranged::angle_in_range(angle)
        & cell::ranged::cell_in_range(cell)
        & ranged::per_angle_in_range(per_angle)
        & potentials::ranged::entries_in_range(xs)
}

pub(crate) fn asked(
    angle: Angle,
    cell: Option<Lattice>,
    angles: &AngleRows,
    xs: &[f64],
    forces: usize,
    missing: usize,
) -> Result<(), Refusal>
    ensures { result ≡ angles_asked angle cell (length angles.now.corners.now) angles.now.per_angle.now xs.now forces missing }
{
    let fit = fits(
        angles.corners.len(),
        angles.per_angle.len(),
        xs.len(),
        forces,
    );
    let inside = in_range(angle, cell, angles.per_angle, xs);
    in_turn(fit, xs.len() / 3, inside, angles.corners.len() / 3, missing)
}
