// How many boxes the minimum image takes off a difference, on each axis: the source's rounded numbers as i32. Beside the image and not in it: where a loop
// asks for the difference alone, the compiler drops the whole call.
ghost use Rattle.std.specs.Prelude.{◌≡◌, true};
ghost use Rattle.std.specs.Float.Ieee.{to_signed};
ghost use Rattle.cell.specs.Boxes.{rounded_of, fits_of, counted_of, no_boxes};
ghost use Rattle.cell.specs.Cell.{lattice_boxes_of};
ghost use Rattle.cell.specs.General.{boxes_by};

use crate::{General, Lattice, Triple, Uncounted, Vec3, kernel, vectors};

// What is rounded is the quotient, or the fraction on the general way.
fn rounded(periodic: bool, q: f64) -> f64
    ensures { result ≡ rounded_of periodic q }
{
    if periodic { float::round(q) } else { 0.0 }
}

fn fits(r: f64) -> bool
    ensures { result ≡ fits_of r }
{
    (r >= -2147483648.0) & (r < 2147483648.0)
}

// `r as i32`, -0 as 0.
fn whole(r: f64) -> i32
    requires { fits_of r ≡ true }
    ensures { result ≡ to_signed 31 r }
{
    float::to_i64(r) as i32
}

fn counted(x: f64, y: f64, z: f64) -> Result<Triple, Uncounted>
    ensures { result ≡ counted_of x y z }
{
    if fits(x) & fits(y) & fits(z) {
        return Ok(Triple {
            x: whole(x),
            y: whole(y),
            z: whole(z),
        });
    }
    Err(Uncounted::NoFit)
}

pub fn none() -> Result<Triple, Uncounted>
    ensures { result ≡ no_boxes }
{
    Ok(Triple { x: 0, y: 0, z: 0 })
}

// By the numbers of the general way; with `general_of(l)` they are the lattice's.
pub fn boxes_by(l: Lattice, g: General, d: Vec3) -> Result<Triple, Uncounted>
    ensures { result ≡ boxes_by l g d }
{
    if g.skewed {
        if g.absent {
            return none();
        }
        if g.singular {
            return Err(Uncounted::NoInverse);
        }
        let x = vectors::dot(g.ix, d);
        let y = vectors::dot(g.iy, d);
        let z = vectors::dot(g.iz, d);
        return counted(rounded(l.px, x), rounded(l.py, y), rounded(l.pz, z));
    }
    counted(
        rounded(l.px, d.x / l.a.x),
        rounded(l.py, d.y / l.b.y),
        rounded(l.pz, d.z / l.c.z),
    )
}

pub(crate) fn lattice_boxes(l: Lattice, d: Vec3) -> Result<Triple, Uncounted>
    ensures { result ≡ lattice_boxes_of l d }
{
    boxes_by(l, kernel::general_of(l), d)
}
