// What is asked of a cell and of the atoms once, before any atom is put into its bin.
ghost use Rattle.std.specs.Prelude.{◌≡◌, ◌/◌, ◌<◌, length, None, Some};
ghost use Rattle.cell.specs.Vec.{sub_of, dot_of, position_at};
ghost use Rattle.neighbor_grid.specs.Grid.{alike, lower_of, upper_of, folded_of, boxed_of, inside_of};
ghost use Rattle.neighbor_grid.specs.Steps.{bounds_of, fraction_by, measure_of};

use cell::{Lattice, Vec3};

// The atoms' bounding box.
#[derive(Clone, Copy)]
pub struct Bounds {
    pub lo: Vec3,
    pub hi: Vec3,
}

// What an atom's fractions are computed from: the rows of the cell's inverse, or the bounding box.
#[derive(Clone, Copy)]
pub enum Ruler {
    Folded { x: Vec3, y: Vec3, z: Vec3 },
    Boxed { lo: Vec3, extent: Vec3 },
}

// The widths that give the numbers of bins, which axes are periodic, and the ruler.
#[derive(Drop)]
pub struct Measure {
    pub singular: bool,
    pub widths: Vec3,
    pub px: bool,
    pub py: bool,
    pub pz: bool,
    pub ruler: Ruler,
}

pub(crate) fn spot_at(xs: &[f64], i: usize) -> Vec3
    requires { i < length xs.now / 3 }
    ensures { result ≡ position_at xs.now i }
{
    Vec3 {
        x: xs[3 * i],
        y: xs[3 * i + 1],
        z: xs[3 * i + 2],
    }
}

fn alike_of(f: f64) -> Vec3
    ensures { result ≡ alike f }
{
    Vec3 { x: f, y: f, z: f }
}

fn lower(a: Vec3, b: Vec3) -> Vec3
    ensures { result ≡ lower_of a b }
{
    Vec3 {
        x: float::min(a.x, b.x),
        y: float::min(a.y, b.y),
        z: float::min(a.z, b.z),
    }
}

fn upper(a: Vec3, b: Vec3) -> Vec3
    ensures { result ≡ upper_of a b }
{
    Vec3 {
        x: float::max(a.x, b.x),
        y: float::max(a.y, b.y),
        z: float::max(a.z, b.z),
    }
}

fn bounds_of(xs: &[f64]) -> Bounds
    ensures { result ≡ bounds_of xs.now }
{
    let n = xs.len() / 3;
    let mut lo = alike_of(float::infinity());
    let mut hi = alike_of(-float::infinity());
    for i in 0..n {
        let p = spot_at(xs, i);
        lo = lower(lo, p);
        hi = upper(hi, p);
    }
    Bounds { lo: lo, hi: hi }
}

fn extent(b: Bounds, least: f64) -> Vec3
    ensures { result ≡ upper_of (sub_of b.hi b.lo) (alike least) }
{
    upper(cell::vectors::sub(b.hi, b.lo), alike_of(least))
}

fn measure_box(xs: &[f64]) -> Measure
    ensures { result ≡ measure_of None xs.now }
{
    let b = bounds_of(xs);
    let lo = b.lo;
    let widths = extent(b, 0.0);
    let spread = extent(b, 1e-30);
    let ruler = Ruler::Boxed {
        lo: lo,
        extent: spread,
    };
    Measure {
        singular: false,
        widths: widths,
        px: false,
        py: false,
        pz: false,
        ruler: ruler,
    }
}

fn measure_lattice(l: Lattice, xs: &[f64]) -> Measure
    ensures { result ≡ measure_of (Some l) xs.now }
{
    let m = cell::matrices::inverse(l);
    let ruler = Ruler::Folded {
        x: cell::kernel::row_vec(m[0]),
        y: cell::kernel::row_vec(m[1]),
        z: cell::kernel::row_vec(m[2]),
    };
    Measure {
        singular: cell::matrices::singular(l),
        widths: cell::kernel::perp_widths(l),
        px: l.px,
        py: l.py,
        pz: l.pz,
        ruler: ruler,
    }
}

pub(crate) fn measure_of(cell: Option<Lattice>, xs: &[f64]) -> Measure
    ensures { result ≡ measure_of cell xs.now }
{
    match cell {
        None => measure_box(xs),
        Some(l) => measure_lattice(l, xs),
    }
}

fn folded(s: Vec3) -> Vec3
    ensures { result ≡ folded_of s }
{
    Vec3 {
        x: float::rem_euclid(s.x, 1.0),
        y: float::rem_euclid(s.y, 1.0),
        z: float::rem_euclid(s.z, 1.0),
    }
}

fn inside(lo: f64, extent: f64, p: f64) -> f64
    ensures { result ≡ inside_of lo extent p }
{
    float::clamp((p - lo) / extent, 0.0, 1.0)
}

fn boxed(lo: Vec3, extent: Vec3, p: Vec3) -> Vec3
    ensures { result ≡ boxed_of lo extent p }
{
    Vec3 {
        x: inside(lo.x, extent.x, p.x),
        y: inside(lo.y, extent.y, p.y),
        z: inside(lo.z, extent.z, p.z),
    }
}

fn turned(x: Vec3, y: Vec3, z: Vec3, p: Vec3) -> Vec3
    ensures { result ≡ record { x = dot_of x p; y = dot_of y p; z = dot_of z p } }
{
    Vec3 {
        x: cell::vectors::dot(x, p),
        y: cell::vectors::dot(y, p),
        z: cell::vectors::dot(z, p),
    }
}

// A position as a fraction of each axis.
pub(crate) fn fraction(ruler: Ruler, p: Vec3) -> Vec3
    ensures { result ≡ fraction_by ruler p }
{
    match ruler {
        Ruler::Folded { x, y, z } => folded(turned(x, y, z, p)),
        Ruler::Boxed { lo, extent } => boxed(lo, extent, p),
    }
}
