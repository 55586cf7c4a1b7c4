// The work for the crates above: total on every number, index and length, no range is tested, and an angle that names no atom is passed over. The forces
// are overwritten with the term's own, from zero. No public call.
ghost use Rattle.std.specs.Prelude.{◌≡◌, length};
ghost use Rattle.potentials_pair.specs.Pull.{held};
ghost use Rattle.potentials_angle.specs.Terms.{angles_over};

use crate::{Angle, AngleRows};
use cell::Lattice;
use virial::Sum;

pub fn angles_all(
    angle: Angle,
    cell: Option<Lattice>,
    angles: &AngleRows,
    positions: &[f64],
    forces: &mut [f64],
) -> Sum
    ensures { held result forces.new ≡ angles_over angle cell angles.now.corners.now angles.now.per_angle.now positions.now (length forces.old) }
{
    virial::kernel::clear(forces);
    let p = cell_prepared::prepare(cell);
    let sum = virial::kernel::zero();
    crate::over::over(angle, p, angles, positions, forces, sum)
}
