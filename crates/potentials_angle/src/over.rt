// One angle, and the loop over the rows.
ghost use Rattle.std.specs.Prelude.{◌≡◌, ◌/◌, ◌<◌, length};
ghost use mathlib.Core.List.{foldl};
ghost use Rattle.lists.specs.Atoms.{atoms_of};
ghost use Rattle.lists.specs.Lists.{up_to};
ghost use Rattle.cell.specs.Vec.{position_at};
ghost use Rattle.cell_prepared.specs.Facts.{image_in};
ghost use Rattle.potentials_pair.specs.Pull.{held};
ghost use Rattle.potentials.specs.Terms.{displaced};
ghost use Rattle.potentials_angle.specs.Terms.{angle_at, angle_bend, angle_step};

use crate::{Angle, AngleRows, Bend, Corner, bends, ranged, rows};
use cell::Vec3;
use cell_prepared::Prepared;
use virial::Sum;

fn spot_at(xs: &[f64], i: usize) -> Vec3
    requires { i < atoms_of xs.now }
    ensures { result ≡ position_at xs.now i }
{
    let k = 3 * i;
    Vec3 {
        x: xs[k],
        y: xs[k + 1],
        z: xs[k + 2],
    }
}

// From atom j to atom i, by the minimum image.
fn arm(p: Prepared, xs: &[f64], i: usize, j: usize) -> Vec3
    requires { (i < atoms_of xs.now) × (j < atoms_of xs.now) }
    ensures { result ≡ displaced (λ d. image_in p d) xs.now (i, j) }
{
    let d = cell::vectors::sub(spot_at(xs, i), spot_at(xs, j));
    cell_prepared::image_in(p, d).diff
}

// Row r's own numbers, or the term's past the end.
fn angle_at(per_angle: &[f64], r: usize, angle: Angle) -> Angle
    ensures { result ≡ angle_at per_angle.now r angle }
{
    if r < per_angle.len() / 2 {
        return ranged::angle_row(per_angle, r);
    }
    angle
}

fn bend_at(
    angle: Angle,
    p: Prepared,
    per_angle: &[f64],
    xs: &[f64],
    r: usize,
    c: Corner,
) -> Option<Bend>
    requires { (c.first < atoms_of xs.now) × (c.apex < atoms_of xs.now) × (c.last < atoms_of xs.now) }
    ensures { result ≡ angle_bend (λ d. image_in p d) angle per_angle.now xs.now r c }
{
    let a = angle_at(per_angle, r, angle);
    let rij = arm(p, xs, c.first, c.apex);
    let rkj = arm(p, xs, c.last, c.apex);
    bends::bend(a, rij, rkj)
}

// Row r added.
fn one(
    angle: Angle,
    p: Prepared,
    angles: &AngleRows,
    xs: &[f64],
    r: usize,
    forces: &mut [f64],
    sum: Sum,
) -> Sum
    requires { r < length angles.now.corners.now / 3 }
    ensures { held result forces.new ≡ angle_step (λ d. image_in p d) angle angles.now.corners.now angles.now.per_angle.now xs.now (held sum forces.old) r }
{
    let c = rows::corner_at(angles.corners, r);
    if rows::is_missing(xs.len() / 3, c) {
        return sum;
    }
    let bend = bend_at(angle, p, angles.per_angle, xs, r, c);
    bends::apply(sum, forces, c, bend)
}

// The angles, in order.
pub(crate) fn over(
    angle: Angle,
    p: Prepared,
    angles: &AngleRows,
    xs: &[f64],
    forces: &mut [f64],
    sum: Sum,
) -> Sum
    ensures { held result forces.new ≡ foldl (angle_step (λ d. image_in p d) angle angles.now.corners.now angles.now.per_angle.now xs.now) (held sum forces.old) (up_to (length angles.now.corners.now / 3)) }
{
    let mut s = sum;
    for r in 0..angles.corners.len() / 3 {
        s = one(angle, p, angles, xs, r, forces, s);
    }
    s
}
