// Cosine angles (02, No. 1): the GROMOS-96 form, in the expressions and the order of potentials.rs' `HarmonicAngles`. The term and the public calls, which
// test their arguments; specs/Calls.antt says what each answers and leaves. The work without tests, for the crates above: `kernel`, `bends`, `ranged`, `rows`.
#![tactic(auto)]

ghost use Rattle.potentials_angle.specs.Calls.{UniformAnglesSays, AnglesAllSays};

use answer::Refusal;
use cell::{Lattice, Vec3};
use virial::Sum;

mod asked;
pub mod bends;
pub mod kernel;
mod over;
pub mod ranged;
pub mod rows;

// A force constant, and a cosine at rest.
#[repr(C)]
#[derive(Clone, Copy)]
pub struct Angle {
    pub k: f64,
    pub rest: f64,
}

// The angles, as they are lent: three atoms a row, the apex in the middle, and for each row k and rest of its own. A row past the end of `per_angle` takes the
// numbers of an `Angle`.
#[derive(Clone, Copy)]
pub struct AngleRows<'a> {
    pub corners: &'a [u32],
    pub per_angle: &'a [f64],
}

// The three atoms of a row: the Rust's (i, apex, k).
#[derive(Clone, Copy)]
pub struct Corner {
    pub first: usize,
    pub apex: usize,
    pub last: usize,
}

// An energy and the forces on the two outer atoms, each with its arm from the apex.
#[derive(Clone, Copy)]
pub struct Bend {
    pub energy: f64,
    pub rij: Vec3,
    pub fi: Vec3,
    pub rkj: Vec3,
    pub fk: Vec3,
}

// The same for each angle.
pub fn uniform_angles(k: f64, rest: f64) -> Result<Angle, Refusal>
    ensures { UniformAnglesSays k rest result }
{
    let angle = Angle { k: k, rest: rest };
    if ranged::angle_in_range(angle) {
        return Ok(angle);
    }
    Err(Refusal::Range)
}

// Cosine angles; one past the end of `per_angle` takes the numbers of `angle`.
pub fn angles_all(
    angle: Angle,
    cell: Option<Lattice>,
    angles: &AngleRows,
    positions: &[f64],
    forces: &mut [f64],
) -> Result<Sum, Refusal>
    ensures { AnglesAllSays angle cell angles.now.corners.now angles.now.per_angle.now positions.now forces.old result forces.new }
{
    let missing = rows::first_missing(angles.corners, positions.len() / 3);
    asked::asked(angle, cell, angles, positions, forces.len(), missing)?;
    Ok(kernel::angles_all(angle, cell, angles, positions, forces))
}
