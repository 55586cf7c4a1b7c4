// Rows of three atom numbers in a lent table. Refusal 4 is also for the crates above.
ghost use Rattle.std.specs.Prelude.{◌≡◌, ◌/◌, ◌<◌, length};
ghost use Rattle.potentials_angle.specs.Rows.{corner_at, is_missing, missing_of};

use crate::Corner;

fn wide(x: u32) -> usize
    ensures { result ≡ x }
{
    x as usize
}

// The atoms of row r.
pub(crate) fn corner_at(angles: &[u32], r: usize) -> Corner
    requires { r < length angles.now / 3 }
    ensures { result ≡ corner_at angles.now r }
{
    Corner {
        first: wide(angles[3 * r]),
        apex: wide(angles[3 * r + 1]),
        last: wide(angles[3 * r + 2]),
    }
}

// Whether one of them is not among n atoms.
pub(crate) fn is_missing(n: usize, c: Corner) -> bool
    ensures { result ≡ is_missing n c }
{
    !((c.first < n) & (c.apex < n) & (c.last < n))
}

// The first row that names an atom not there, or the number of rows where there is none.
pub fn first_missing(angles: &[u32], n: usize) -> usize
    ensures { result ≡ missing_of n angles.now }
{
    let m = angles.len() / 3;
    for r in 0..m {
        let c = corner_at(angles, r);
        if is_missing(n, c) {
            return r;
        }
    }
    m
}
