// Lattice cells and minimum-image displacements (cell.rs): the types and the public calls. Each call tests its own arguments
// and refuses 3. The work without tests, for the crates above: `kernel`, `matrices`, `vectors`, and the range tests in `ranged`.
#![tactic(auto)]

ghost use Rattle.cell.specs.Calls.{OrthorhombicSays, CubicSays, IsOrthorhombicSays, MatrixSays, VolumeSays, InverseSays, ToFractionalSays, ToCartesianSays, WrapSays, PerpWidthsSays, MinImageSays};

use answer::Refusal;

pub mod counting;
pub mod kernel;
pub mod matrices;
pub mod ranged;
pub mod vectors;

#[repr(C)]
#[derive(Clone, Copy)]
pub struct Vec3 {
    pub x: f64,
    pub y: f64,
    pub z: f64,
}

// The three lattice vectors, and which axes are periodic.
#[derive(Clone, Copy)]
pub struct Lattice {
    pub a: Vec3,
    pub b: Vec3,
    pub c: Vec3,
    pub px: bool,
    pub py: bool,
    pub pz: bool,
}

// How many boxes were taken off, on each axis.
#[derive(Drop)]
pub struct Triple {
    pub x: i32,
    pub y: i32,
    pub z: i32,
}

// Why there are no such numbers: one is no i32, or the general way has no inverse.
#[derive(Clone, Copy)]
pub enum Uncounted {
    NoFit,
    NoInverse,
}

// What the minimum image is, and the boxes that it took off the difference.
#[derive(Drop)]
pub struct Image {
    pub diff: Vec3,
    pub counts: Result<Triple, Uncounted>,
}

// What the general way of the minimum image wants to know of a lattice: whether it is taken, whether there is an inverse, and the
// inverse's rows.
#[derive(Clone, Copy)]
pub struct General {
    pub skewed: bool,
    pub singular: bool,
    pub absent: bool,
    pub ix: Vec3,
    pub iy: Vec3,
    pub iz: Vec3,
}

// Three rows of three floats.
#[repr(C)]
#[derive(Drop)]
pub struct Rows {
    pub x: [f64; 3],
    pub y: [f64; 3],
    pub z: [f64; 3],
}

pub fn orthorhombic(lx: f64, ly: f64, lz: f64) -> Result<Lattice, Refusal>
    ensures { OrthorhombicSays lx ly lz result }
{
    if ranges::is_within(ranged::ENTRY, lx)
        & ranges::is_within(ranged::ENTRY, ly)
        & ranges::is_within(ranged::ENTRY, lz)
    {
        return Ok(kernel::orthorhombic(lx, ly, lz));
    }
    Err(Refusal::Range)
}

pub fn cubic(l: f64) -> Result<Lattice, Refusal>
    ensures { CubicSays l result }
{
    if ranges::is_within(ranged::ENTRY, l) {
        return Ok(kernel::cubic(l));
    }
    Err(Refusal::Range)
}

pub fn is_orthorhombic(l: Lattice) -> Result<bool, Refusal>
    ensures { IsOrthorhombicSays l result }
{
    if ranged::lattice_in_range(l) {
        return Ok(kernel::is_orthorhombic(l));
    }
    Err(Refusal::Range)
}

pub fn matrix(l: Lattice) -> Result<Rows, Refusal>
    ensures { MatrixSays l result }
{
    if ranged::lattice_in_range(l) {
        return Ok(matrices::rows_of(matrices::matrix(l)));
    }
    Err(Refusal::Range)
}

pub fn volume(l: Lattice) -> Result<f64, Refusal>
    ensures { VolumeSays l result }
{
    if ranged::lattice_in_range(l) {
        return Ok(matrices::volume(l));
    }
    Err(Refusal::Range)
}

// `None` where the lattice has no inverse.
pub fn inverse(l: Lattice) -> Result<Option<Rows>, Refusal>
    ensures { InverseSays l result }
{
    if ranged::lattice_in_range(l) {
        if matrices::singular(l) {
            return Ok(None);
        }
        return Ok(Some(matrices::rows_of(matrices::inverse(l))));
    }
    Err(Refusal::Range)
}

pub fn to_fractional(l: Lattice, r: Vec3) -> Result<Vec3, Refusal>
    ensures { ToFractionalSays l r result }
{
    if ranged::lattice_in_range(l) & ranged::vec_within(ranged::ENTRY, r) {
        return Ok(kernel::to_fractional(l, r));
    }
    Err(Refusal::Range)
}

pub fn to_cartesian(l: Lattice, s: Vec3) -> Result<Vec3, Refusal>
    ensures { ToCartesianSays l s result }
{
    if ranged::lattice_in_range(l) & ranged::vec_within(ranged::OTHER, s) {
        return Ok(kernel::to_cartesian(l, s));
    }
    Err(Refusal::Range)
}

pub fn wrap(l: Lattice, r: Vec3) -> Result<Vec3, Refusal>
    ensures { WrapSays l r result }
{
    if ranged::lattice_in_range(l) & ranged::vec_within(ranged::ENTRY, r) {
        return Ok(kernel::wrap(l, r));
    }
    Err(Refusal::Range)
}

pub fn perp_widths(l: Lattice) -> Result<Vec3, Refusal>
    ensures { PerpWidthsSays l result }
{
    if ranged::lattice_in_range(l) {
        return Ok(kernel::perp_widths(l));
    }
    Err(Refusal::Range)
}

// The minimum image of a difference.
pub fn min_image(d: Vec3, cell: Option<Lattice>) -> Result<Image, Refusal>
    ensures { MinImageSays d cell result }
{
    if ranged::vec_within(ranged::OTHER, d) & ranged::cell_in_range(cell) {
        return Ok(kernel::min_image(d, cell));
    }
    Err(Refusal::Range)
}
