// Whether a cell is, bit for bit, another one.
ghost use Rattle.std.specs.Prelude.{◌≡◌, None, Some};
ghost use Rattle.neighbor.specs.Rebuild.{same_number, same_vector, same_flag, same_lattice, same_box};

use cell::{Lattice, Vec3};

fn same_number(x: f64, y: f64) -> bool
    ensures { result ≡ same_number x y }
{
    float::to_bits(x) == float::to_bits(y)
}

fn same_vector(a: Vec3, b: Vec3) -> bool
    ensures { result ≡ same_vector a b }
{
    same_number(a.x, b.x) & same_number(a.y, b.y) & same_number(a.z, b.z)
}

fn same_flag(a: bool, b: bool) -> bool
    ensures { result ≡ same_flag a b }
{
    if a {
        return b;
    }
    !b
}

fn same_lattice(l: Lattice, m: Lattice) -> bool
    ensures { result ≡ same_lattice l m }
{
    same_vector(l.a, m.a)
        & same_vector(l.b, m.b)
        & same_vector(l.c, m.c)
        & same_flag(l.px, m.px)
        & same_flag(l.py, m.py)
        & same_flag(l.pz, m.pz)
}

fn is_absent(cell: Option<Lattice>) -> bool
    ensures { result ≡ same_box None cell }
{
    match cell {
        None => true,
        Some(_) => false,
    }
}

fn is_lattice(l: Lattice, cell: Option<Lattice>) -> bool
    ensures { result ≡ same_box (Some l) cell }
{
    match cell {
        None => false,
        Some(m) => same_lattice(l, m),
    }
}

pub(crate) fn is_same(a: Option<Lattice>, b: Option<Lattice>) -> bool
    ensures { result ≡ same_box a b }
{
    match a {
        None => is_absent(b),
        Some(l) => is_lattice(l, b),
    }
}
