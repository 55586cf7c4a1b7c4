// The cell's own functions without a test of their arguments, for the crates above: total on every float. Fractional and Cartesian
// coordinates, wrap, widths and the minimum image.
ghost use Rattle.std.specs.Prelude.{◌≡◌};
ghost use Rattle.cell.specs.Cell.{orthorhombic_of, cubic_of, off_diagonal_of, is_orthorhombic_of, to_fractional_of, to_cartesian_of, wrap_axis_of, wrap_fraction_of, wrap_of, width_of, perp_widths_of, round_axis_of, general_image_of, skewed_of, lattice_image_of, image_of};
ghost use Rattle.cell.specs.General.{box_by, rounded_by, row_vec, general_of, general_by, image_by};

use crate::{General, Image, Lattice, Vec3, counting, matrices, vectors};

pub fn orthorhombic(lx: f64, ly: f64, lz: f64) -> Lattice
    ensures { result ≡ orthorhombic_of lx ly lz }
{
    Lattice {
        a: Vec3 {
            x: lx,
            y: 0.0,
            z: 0.0,
        },
        b: Vec3 {
            x: 0.0,
            y: ly,
            z: 0.0,
        },
        c: Vec3 {
            x: 0.0,
            y: 0.0,
            z: lz,
        },
        px: true,
        py: true,
        pz: true,
    }
}

pub fn cubic(l: f64) -> Lattice
    ensures { result ≡ cubic_of l }
{
    orthorhombic(l, l, l)
}

fn off_diagonal(l: Lattice) -> f64
    ensures { result ≡ off_diagonal_of l }
{
    float::abs(l.a.y)
        + float::abs(l.a.z)
        + float::abs(l.b.x)
        + float::abs(l.b.z)
        + float::abs(l.c.x)
        + float::abs(l.c.y)
}

pub fn is_orthorhombic(l: Lattice) -> bool
    ensures { result ≡ is_orthorhombic_of l }
{
    off_diagonal(l) < 1e-9
}

pub fn to_fractional(l: Lattice, r: Vec3) -> Vec3
    ensures { result ≡ to_fractional_of l r }
{
    if matrices::singular(l) {
        return r;
    }
    matrices::times(matrices::inverse(l), r)
}

pub fn to_cartesian(l: Lattice, s: Vec3) -> Vec3
    ensures { result ≡ to_cartesian_of l s }
{
    matrices::times(matrices::matrix(l), s)
}

// The fold of a tiny negative number is 1 itself, which is turned into 0.
fn wrap_axis(periodic: bool, s: f64) -> f64
    ensures { result ≡ wrap_axis_of periodic s }
{
    if periodic {
        let t = float::rem_euclid(s, 1.0);
        if t >= 1.0 {
            return 0.0;
        }
        return t;
    }
    s
}

fn wrap_fraction(l: Lattice, s: Vec3) -> Vec3
    ensures { result ≡ wrap_fraction_of l s }
{
    Vec3 {
        x: wrap_axis(l.px, s.x),
        y: wrap_axis(l.py, s.y),
        z: wrap_axis(l.pz, s.z),
    }
}

pub fn wrap(l: Lattice, r: Vec3) -> Vec3
    ensures { result ≡ wrap_of l r }
{
    if matrices::singular(l) {
        return r;
    }
    to_cartesian(l, wrap_fraction(l, to_fractional(l, r)))
}

fn width(volume: f64, a: Vec3, b: Vec3) -> f64
    ensures { result ≡ width_of volume a b }
{
    let area = vectors::norm(vectors::cross(a, b));
    if area > 1e-12 {
        return volume / area;
    }
    float::infinity()
}

pub fn perp_widths(l: Lattice) -> Vec3
    ensures { result ≡ perp_widths_of l }
{
    let v = float::abs(matrices::volume(l));
    Vec3 {
        x: width(v, l.b, l.c),
        y: width(v, l.c, l.a),
        z: width(v, l.a, l.b),
    }
}

fn round_axis(periodic: bool, s: f64) -> f64
    ensures { result ≡ round_axis_of periodic s }
{
    if periodic {
        return cell_axis::fraction(s);
    }
    s
}

// One call for the three axes, in a box: floats and flags by themselves, since a struct that is handed to a call is copied.
fn box_image(
    px: bool,
    py: bool,
    pz: bool,
    lx: f64,
    ly: f64,
    lz: f64,
    dx: f64,
    dy: f64,
    dz: f64,
) -> Vec3
    ensures { result ≡ box_by px py pz lx ly lz dx dy dz }
{
    let ax = float::abs(dx);
    let ay = float::abs(dy);
    let az = float::abs(dz);
    let reach = cell_axis::in_reach(ax, lx)
        & cell_axis::in_reach(ay, ly)
        & cell_axis::in_reach(az, lz);
    if px & py & pz & reach {
        return Vec3 {
            x: cell_axis::far(ax, lx, dx),
            y: cell_axis::far(ay, ly, dy),
            z: cell_axis::far(az, lz, dz),
        };
    }
    Vec3 {
        x: cell_axis::axis(px, lx, dx),
        y: cell_axis::axis(py, ly, dy),
        z: cell_axis::axis(pz, lz, dz),
    }
}

// .. and on the general way, where the lengths are 1.
fn round_fraction(px: bool, py: bool, pz: bool, x: f64, y: f64, z: f64) -> Vec3
    ensures { result ≡ rounded_by px py pz x y z }
{
    let ax = float::abs(x);
    let ay = float::abs(y);
    let az = float::abs(z);
    let reach = cell_axis::in_reach(ax, 1.0)
        & cell_axis::in_reach(ay, 1.0)
        & cell_axis::in_reach(az, 1.0);
    if px & py & pz & reach {
        return Vec3 {
            x: cell_axis::far(ax, 1.0, x),
            y: cell_axis::far(ay, 1.0, y),
            z: cell_axis::far(az, 1.0, z),
        };
    }
    Vec3 {
        x: round_axis(px, x),
        y: round_axis(py, y),
        z: round_axis(pz, z),
    }
}

// Whether the minimum image goes the general way.
pub fn skewed(l: Lattice) -> bool
    ensures { result ≡ skewed_of l }
{
    (off_diagonal(l) > 1e-9) | (l.a.x <= 0.0) | (l.b.y <= 0.0) | (l.c.z <= 0.0)
}

pub fn row_vec(r: [f64; 3]) -> Vec3
    ensures { result ≡ row_vec r }
{
    Vec3 {
        x: r[0],
        y: r[1],
        z: r[2],
    }
}

// Zeros where the general way is not taken.
pub fn general_of(l: Lattice) -> General
    ensures { result ≡ general_of l }
{
    if skewed(l) {
        let m = matrices::inverse(l);
        return General {
            skewed: true,
            singular: matrices::singular(l),
            absent: false,
            ix: row_vec(m[0]),
            iy: row_vec(m[1]),
            iz: row_vec(m[2]),
        };
    }
    General {
        skewed: false,
        singular: true,
        absent: false,
        ix: vectors::zero(),
        iy: vectors::zero(),
        iz: vectors::zero(),
    }
}

fn general_by(l: Lattice, g: General, d: Vec3) -> Vec3
    ensures { result ≡ general_by l g d }
{
    if g.singular {
        return d;
    }
    let x = vectors::dot(g.ix, d);
    let y = vectors::dot(g.iy, d);
    let z = vectors::dot(g.iz, d);
    matrices::times(
        matrices::matrix(l),
        round_fraction(l.px, l.py, l.pz, x, y, z),
    )
}

// The minimum image in a lattice by the numbers of the general way; with `general_of(l)` it is the source's.
pub fn image_by(l: Lattice, g: General, d: Vec3) -> Vec3
    ensures { result ≡ image_by l g d }
{
    if g.skewed {
        return general_by(l, g, d);
    }
    box_image(l.px, l.py, l.pz, l.a.x, l.b.y, l.c.z, d.x, d.y, d.z)
}

fn general_image(l: Lattice, d: Vec3) -> Vec3
    ensures { result ≡ general_image_of l d }
{
    if matrices::singular(l) {
        return d;
    }
    let s = matrices::times(matrices::inverse(l), d);
    matrices::times(
        matrices::matrix(l),
        round_fraction(l.px, l.py, l.pz, s.x, s.y, s.z),
    )
}

// A single image asks for no more than the source does.
fn lattice_image(l: Lattice, d: Vec3) -> Vec3
    ensures { result ≡ lattice_image_of l d }
{
    if skewed(l) {
        return general_image(l, d);
    }
    box_image(l.px, l.py, l.pz, l.a.x, l.b.y, l.c.z, d.x, d.y, d.z)
}

// The minimum image of a difference in a cell, or the difference itself without one.
pub fn min_image(d: Vec3, cell: Option<Lattice>) -> Image
    ensures { result ≡ image_of d cell }
{
    match cell {
        None => Image {
            diff: d,
            counts: counting::none(),
        },
        Some(l) => Image {
            diff: lattice_image(l, d),
            counts: counting::lattice_boxes(l, d),
        },
    }
}
