// Lattices and the minimum image (cell.rs). Refusal 3.
ghost use Rattle.cell.specs.Calls.{CubicSays, InverseSays, IsOrthorhombicSays, MatrixSays, MinImageSays, OrthorhombicSays, PerpWidthsSays, ToCartesianSays, ToFractionalSays, VolumeSays, WrapSays};
ghost use Rattle.field_structs.specs.Flat.{flat_image, flat_inverse, flat_lattice_answer, flat_number, flat_rows, flat_vector, flat_yes_no};
ghost use Rattle.field_structs.specs.Shown.{Shown};
ghost use Rattle.field_structs.specs.Taken.{cell_of, lattice_of};

use cell::Vec3;
use field_structs::{
    FlatCell, FlatImageAnswer, FlatInverseAnswer, FlatLattice, FlatLatticeAnswer, FlatNumber,
    FlatRowsAnswer, FlatVector, FlatYesNo,
};

// The lattice of a box with edges lx, ly, lz along the axes, periodic on all three. Refusal 3.
#[unsafe(no_mangle)]
pub extern "C" fn tyn_orthorhombic(lx: f64, ly: f64, lz: f64) -> FlatLatticeAnswer
    ensures { Shown flat_lattice_answer (OrthorhombicSays lx ly lz) result }
{
    cell::orthorhombic(lx, ly, lz).into()
}

// The lattice of a cube with edge l, periodic on all three axes. Refusal 3.
#[unsafe(no_mangle)]
pub extern "C" fn tyn_cubic(l: f64) -> FlatLatticeAnswer
    ensures { Shown flat_lattice_answer (CubicSays l) result }
{
    cell::cubic(l).into()
}

// Whether the off-diagonal magnitudes sum to less than 1e-9. Refusal 3.
#[unsafe(no_mangle)]
pub extern "C" fn tyn_is_orthorhombic(lattice: FlatLattice) -> FlatYesNo
    ensures { Shown flat_yes_no (IsOrthorhombicSays (lattice_of lattice)) result }
{
    cell::is_orthorhombic(lattice.into()).into()
}

// The lattice vectors as the columns of three rows. Refusal 3.
#[unsafe(no_mangle)]
pub extern "C" fn tyn_matrix(lattice: FlatLattice) -> FlatRowsAnswer
    ensures { Shown flat_rows (MatrixSays (lattice_of lattice)) result }
{
    cell::matrix(lattice.into()).into()
}

// The volume. Refusal 3.
#[unsafe(no_mangle)]
pub extern "C" fn tyn_volume(lattice: FlatLattice) -> FlatNumber
    ensures { Shown flat_number (VolumeSays (lattice_of lattice)) result }
{
    cell::volume(lattice.into()).into()
}

// The inverse of the matrix, if there is one. Refusal 3.
#[unsafe(no_mangle)]
pub extern "C" fn tyn_inverse(lattice: FlatLattice) -> FlatInverseAnswer
    ensures { Shown flat_inverse (InverseSays (lattice_of lattice)) result }
{
    cell::inverse(lattice.into()).into()
}

// Fractional coordinates of r. Refusal 3.
#[unsafe(no_mangle)]
pub extern "C" fn tyn_to_fractional(lattice: FlatLattice, r: Vec3) -> FlatVector
    ensures { Shown flat_vector (ToFractionalSays (lattice_of lattice) r) result }
{
    cell::to_fractional(lattice.into(), r).into()
}

// Cartesian coordinates of s. Refusal 3.
#[unsafe(no_mangle)]
pub extern "C" fn tyn_to_cartesian(lattice: FlatLattice, s: Vec3) -> FlatVector
    ensures { Shown flat_vector (ToCartesianSays (lattice_of lattice) s) result }
{
    cell::to_cartesian(lattice.into(), s).into()
}

// r folded into the cell on its periodic axes. Refusal 3.
#[unsafe(no_mangle)]
pub extern "C" fn tyn_wrap(lattice: FlatLattice, r: Vec3) -> FlatVector
    ensures { Shown flat_vector (WrapSays (lattice_of lattice) r) result }
{
    cell::wrap(lattice.into(), r).into()
}

// The widths between opposite faces. Refusal 3.
#[unsafe(no_mangle)]
pub extern "C" fn tyn_perp_widths(lattice: FlatLattice) -> FlatVector
    ensures { Shown flat_vector (PerpWidthsSays (lattice_of lattice)) result }
{
    cell::perp_widths(lattice.into()).into()
}

// The minimum image of the difference d. Refusal 3.
#[unsafe(no_mangle)]
pub extern "C" fn tyn_min_image(d: Vec3, cell: FlatCell) -> FlatImageAnswer
    ensures { Shown flat_image (MinImageSays d (cell_of cell)) result }
{
    cell::min_image(d, cell.into()).into()
}
