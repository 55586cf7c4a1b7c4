// The minimum image for a loop over differences: the cell's facts are asked once, and most differences in a box need no division.
// proofs/Law.antt: image_in(prepare(cell), d) is cell::kernel::min_image(d, cell).
#![tactic(auto)]

ghost use Rattle.std.specs.Prelude.{◌≡◌, true};
ghost use Rattle.cell_prepared.specs.Facts.{short_of, prepare_of, is_short, short_image, diff_in, image_in, InnerSays, SettledSays};

use cell::{General, Image, Lattice, Vec3, counting, kernel, vectors};

// A cell's facts (specs/Facts.antt).
#[derive(Clone, Copy)]
pub struct Prepared {
    // the lengths of a box that is periodic on each axis, zeros of any other cell
    pub short: Vec3,
    pub lattice: Lattice,
    pub general: General,
}

fn short_of(l: Lattice) -> Vec3
    ensures { result ≡ short_of l }
{
    let finite = (l.a.x < 1e300) & (l.b.y < 1e300) & (l.c.z < 1e300);
    if !kernel::skewed(l) & l.px & l.py & l.pz & finite {
        return Vec3 {
            x: l.a.x,
            y: l.b.y,
            z: l.c.z,
        };
    }
    vectors::zero()
}

// Without a cell the difference stays, as in a lattice with no inverse, but the counts are zeros.
pub fn prepare(cell: Option<Lattice>) -> Prepared
    ensures { result ≡ prepare_of cell }
{
    match cell {
        None => Prepared {
            short: vectors::zero(),
            lattice: kernel::cubic(0.0),
            general: General {
                skewed: true,
                singular: true,
                absent: true,
                ix: vectors::zero(),
                iy: vectors::zero(),
                iz: vectors::zero(),
            },
        },
        Some(l) => Prepared {
            short: short_of(l),
            lattice: l,
            general: kernel::general_of(l),
        },
    }
}

fn is_short(s: Vec3, d: Vec3) -> bool
    ensures { result ≡ is_short s d }
{
    (float::abs(d.x) < s.x) & (float::abs(d.y) < s.y) & (float::abs(d.z) < s.z)
}

fn short_image(s: Vec3, d: Vec3) -> Vec3
    requires { is_short s d ≡ true }
    ensures { result ≡ short_image s d }
{
    Vec3 {
        x: cell_axis::near(s.x, d.x),
        y: cell_axis::near(s.y, d.y),
        z: cell_axis::near(s.z, d.z),
    }
}

// Whether the short way on one axis takes nothing off: a loop over many differences may ask it of all of them, and leave them as they are but for a 0 added.
pub fn is_inner(len: f64, x: f64) -> bool
    ensures { InnerSays len x result }
{
    float::abs(x + x) < len
}

// .. with the 0 added. Its image by the short way is that of x, so that such a loop may write it before it knows.
pub fn settled(x: f64) -> f64
    ensures { SettledSays x result }
{
    x + 0.0
}

// The difference alone. It is the image's; the counts are asked beside it.
fn diff_in(p: Prepared, d: Vec3) -> Vec3
    ensures { result ≡ diff_in p d }
{
    let s = p.short;
    if is_short(s, d) {
        return short_image(s, d);
    }
    let l = p.lattice;
    let g = p.general;
    kernel::image_by(l, g, d)
}

// The same for an innermost loop that carries on with the difference. Small, so that it goes into the loop: what is short, or free because there is no cell,
// is done there, and only the rest is a call, for which the facts are copied.
pub fn quick_diff(p: Prepared, d: Vec3) -> Vec3
    ensures { result ≡ (image_in p d).diff }
{
    let s = p.short;
    if is_short(s, d) {
        return short_image(s, d);
    }
    if p.general.skewed & p.general.singular {
        return d;
    }
    diff_in(p, d)
}

// Who takes the difference alone has the counts for nothing: their call touches no memory but its answer, so the compiler drops it.
pub fn image_in(p: Prepared, d: Vec3) -> Image
    ensures { result ≡ image_in p d }
{
    let l = p.lattice;
    let g = p.general;
    let counts = counting::boxes_by(l, g, d);
    Image {
        diff: diff_in(p, d),
        counts: counts,
    }
}

// .. and for an innermost loop.
pub fn quick_image(p: Prepared, d: Vec3) -> Image
    ensures { result ≡ image_in p d }
{
    let l = p.lattice;
    let g = p.general;
    let counts = counting::boxes_by(l, g, d);
    Image {
        diff: quick_diff(p, d),
        counts: counts,
    }
}
