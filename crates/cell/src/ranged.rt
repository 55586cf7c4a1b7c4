// The range tests of vectors and cells (01, "Ranges").
ghost use Rattle.std.specs.Prelude.{◌≡◌};
ghost use Rattle.cell.specs.Ranged.{vec_within, lattice_in_range, cell_in_range};

use crate::{Lattice, Vec3};

// 2^20, for coordinates and cell entries, and 2^500, for every other float.
pub const ENTRY: f64 = 1048576.0;

pub const OTHER: f64 = 3.2733906078961419e150;

pub fn vec_within(limit: f64, v: Vec3) -> bool
    ensures { result ≡ vec_within limit v }
{
    ranges::is_within(limit, v.x) & ranges::is_within(limit, v.y) & ranges::is_within(limit, v.z)
}

pub fn lattice_in_range(l: Lattice) -> bool
    ensures { result ≡ lattice_in_range l }
{
    vec_within(ENTRY, l.a) & vec_within(ENTRY, l.b) & vec_within(ENTRY, l.c)
}

pub fn cell_in_range(cell: Option<Lattice>) -> bool
    ensures { result ≡ cell_in_range cell }
{
    match cell {
        None => true,
        Some(l) => lattice_in_range(l),
    }
}
