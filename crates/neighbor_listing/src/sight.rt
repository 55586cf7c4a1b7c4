// Whether two atoms are near: the minimum image of low minus high, by the cell's prepared facts, against the squared radius.
ghost use Rattle.std.specs.Prelude.{◌≡◌, cond, ◌/◌, ◌<◌, length};
ghost use Rattle.cell.specs.Vec.{sub_of, position_at};
ghost use Rattle.neighbor_listing.specs.Steps.{sees_of, sight_of};

use cell::{Lattice, Vec3, vectors};
use cell_prepared::Prepared;

// What the test of a pair asks: the cell's facts, and the square of the radius.
#[derive(Clone, Copy)]
pub struct Sight {
    pub prepared: Prepared,
    pub limit: f64,
}

pub(crate) fn spot_at(xs: &[f64], i: usize) -> Vec3
    requires { i < length xs.now / 3 }
    ensures { result ≡ position_at xs.now i }
{
    Vec3 {
        x: xs[3 * i],
        y: xs[3 * i + 1],
        z: xs[3 * i + 2],
    }
}

// a - b, or b - a: the low atom's place less the high one's. A branch, since the atoms of a part rise: it turns once a part.
fn apart(rising: bool, a: Vec3, b: Vec3) -> Vec3
    ensures { result ≡ sub_of (cond rising a b) (cond rising b a) }
{
    if rising {
        return vectors::sub(a, b);
    }
    vectors::sub(b, a)
}

pub(crate) fn sees(s: Sight, rising: bool, a: Vec3, b: Vec3) -> bool
    ensures { result ≡ sees_of s (cond rising a b) (cond rising b a) }
{
    let p = s.prepared;
    vectors::norm2(cell_prepared::quick_image(p, apart(rising, a, b)).diff) <= s.limit
}

// The cell's facts are asked once for all pairs.
pub(crate) fn sight_of(cell: Option<Lattice>, radius: f64) -> Sight
    ensures { result ≡ sight_of cell radius }
{
    Sight {
        prepared: cell_prepared::prepare(cell),
        limit: radius * radius,
    }
}
