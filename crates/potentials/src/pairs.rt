// A pair of atoms: its row in a lent table, whether both are there, and how they lie to each other.
ghost use Rattle.std.specs.Prelude.{◌≡◌, ◌+◌, ◌*◌, ◌/◌, ◌<◌, length, get_or};
ghost use Rattle.cell.specs.Vec.{position_at};
ghost use Rattle.lists.specs.Atoms.{atoms_of};
ghost use Rattle.ranges.specs.Rows.{is_absent};
ghost use Rattle.cell_prepared.specs.Facts.{image_in};
ghost use Rattle.potentials.specs.Terms.{displaced};

use cell::Vec3;
use cell_prepared::Prepared;

// The two atoms of row k.
pub(crate) fn first_of(pairs: &[u32], k: usize) -> usize
    requires { k < length pairs.now / 2 }
    ensures { result ≡ get_or pairs.now (2 * k) 0 }
{
    pairs[2 * k] as usize
}

pub(crate) fn second_of(pairs: &[u32], k: usize) -> usize
    requires { k < length pairs.now / 2 }
    ensures { result ≡ get_or pairs.now (2 * k + 1) 0 }
{
    pairs[2 * k + 1] as usize
}

pub(crate) fn is_absent(n: usize, i: usize, j: usize) -> bool
    ensures { result ≡ is_absent n (i, j) }
{
    !((i < n) & (j < n))
}

pub(crate) fn spot_at(xs: &[f64], i: usize) -> Vec3
    requires { i < atoms_of xs.now }
    ensures { result ≡ position_at xs.now i }
{
    let k = 3 * i;
    Vec3 {
        x: xs[k],
        y: xs[k + 1],
        z: xs[k + 2],
    }
}

// From atom j to atom i, by the minimum image; by `quick_diff`, which goes into a loop over blocks.
pub(crate) fn quick_displacement(p: Prepared, xs: &[f64], i: usize, j: usize) -> Vec3
    requires { (i < atoms_of xs.now) × (j < atoms_of xs.now) }
    ensures { result ≡ displaced (λ d. image_in p d) xs.now (i, j) }
{
    let d = cell::vectors::sub(spot_at(xs, i), spot_at(xs, j));
    cell_prepared::quick_diff(p, d)
}
