// A block of pairs in local arrays. What many pairs add is found before the sums, which go one after the other in the list's order: so no pair waits for
// the one before it, and no branch depends on a distance.
ghost use Rattle.std.specs.Prelude.{◌≡◌, cond, ◌+◌, ◌*◌, ◌≤◌, ◌<◌, length, set};
ghost use Rattle.potentials.specs.Blocks.{set_vec, Block};

use cell::Vec3;

// Two atoms, three floats and two floats or one a place; in functions of their own, so that no proof writes out their numbers.
pub(crate) fn blank_atoms() -> [usize; 256]
    ensures { length result ≡ 256 }
{
    [0usize; 256]
}

pub(crate) fn blank_apart() -> [f64; 384]
    ensures { length result ≡ 384 }
{
    [0.0; 384]
}

pub(crate) fn blank_two() -> [f64; 256]
    ensures { length result ≡ 256 }
{
    [0.0; 256]
}

pub(crate) fn blank_one() -> [f64; 128]
    ensures { length result ≡ 128 }
{
    [0.0; 128]
}

// How far a block from k goes: to n, or 128 pairs.
pub(crate) fn block_end(k: usize, n: usize) -> usize
    requires { k < n }
    ensures { (k < result) × (result ≤ n) × (result ≤ k + 128) }
{
    if n - k <= 128 {
        return n;
    }
    k + 128
}

// The places taken after one more, which stays where it is not skipped.
pub(crate) fn taken(skipped: bool, c: usize) -> usize
    requires { c < 128 }
    ensures { result ≡ cond skipped c (c + 1) }
{
    if skipped { c } else { c + 1 }
}

// Place c.
pub(crate) fn put(
    c: usize,
    i: usize,
    j: usize,
    d: Vec3,
    u: f64,
    v: f64,
    atoms: &mut [usize],
    apart: &mut [f64],
    two: &mut [f64],
)
    requires { (c < 128) × Block atoms.old apart.old two.old }
    ensures atoms_after { atoms.new ≡ set (set atoms.old (2 * c) i) (2 * c + 1) j }
    ensures apart_after { apart.new ≡ set_vec apart.old c d }
    ensures two_after { two.new ≡ set (set two.old (2 * c) u) (2 * c + 1) v }
{
    atoms[2 * c] = i;
    atoms[2 * c + 1] = j;
    apart[3 * c] = d.x;
    apart[3 * c + 1] = d.y;
    apart[3 * c + 2] = d.z;
    two[2 * c] = u;
    two[2 * c + 1] = v;
}
