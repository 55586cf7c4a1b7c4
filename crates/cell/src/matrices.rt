// The cell matrix, its determinant and its inverse. The definitions speak of the matrix, as the source does; the code reads the
// lattice's fields, which ask no proof of an index.
ghost use Rattle.std.specs.Prelude.{◌≡◌};
ghost use Rattle.cell.specs.Matrix.{matrix_of, volume_of, adjugate_of, largest_of, singular_of, inverse_of, times_row, times_of};
ghost use Rattle.cell.specs.General.{above_of, running_of, running_in_row};
ghost use Rattle.cell.specs.Seen.{rows_of, zero_rows};

use crate::{Lattice, Rows, Vec3};

pub fn matrix(l: Lattice) -> [[f64; 3]; 3]
    ensures { result ≡ matrix_of l }
{
    [
        [l.a.x, l.b.x, l.c.x],
        [l.a.y, l.b.y, l.c.y],
        [l.a.z, l.b.z, l.c.z],
    ]
}

pub fn volume(l: Lattice) -> f64
    ensures { result ≡ volume_of l }
{
    l.a.x * (l.b.y * l.c.z - l.c.y * l.b.z) - l.b.x * (l.a.y * l.c.z - l.c.y * l.a.z)
        + l.c.x * (l.a.y * l.b.z - l.b.y * l.a.z)
}

fn adjugate(l: Lattice, id: f64) -> [[f64; 3]; 3]
    ensures { result ≡ adjugate_of (matrix_of l) id }
{
    [
        [
            (l.b.y * l.c.z - l.c.y * l.b.z) * id,
            (l.c.x * l.b.z - l.b.x * l.c.z) * id,
            (l.b.x * l.c.y - l.c.x * l.b.y) * id,
        ],
        [
            (l.c.y * l.a.z - l.a.y * l.c.z) * id,
            (l.a.x * l.c.z - l.c.x * l.a.z) * id,
            (l.c.x * l.a.y - l.a.x * l.c.y) * id,
        ],
        [
            (l.a.y * l.b.z - l.b.y * l.a.z) * id,
            (l.b.x * l.a.z - l.a.x * l.b.z) * id,
            (l.a.x * l.b.y - l.b.x * l.a.y) * id,
        ],
    ]
}

fn above(m: f64, v: f64) -> f64
    ensures { result ≡ above_of m v }
{
    if m < v { v } else { m }
}

// The larger of m and |v|, for an m that is not negative: two comparisons, and none of them asks for a not-a-number or a zero.
fn larger(m: f64, v: f64) -> f64
    ensures { result ≡ running_of m v }
{
    above(above(m, v), -v)
}

fn largest_in_row(m: f64, x: f64, y: f64, z: f64) -> f64
    ensures { result ≡ running_in_row m x y z }
{
    larger(larger(larger(m, x), y), z)
}

// The largest magnitude of the nine.
fn largest(l: Lattice) -> f64
    ensures { result ≡ largest_of (matrix_of l) }
{
    let x = largest_in_row(0.0, l.a.x, l.b.x, l.c.x);
    let y = largest_in_row(x, l.a.y, l.b.y, l.c.y);
    largest_in_row(y, l.a.z, l.b.z, l.c.z)
}

pub fn singular(l: Lattice) -> bool
    ensures { result ≡ singular_of l }
{
    let scale = largest(l);
    float::abs(volume(l)) <= 1e-12 * scale * scale * scale
}

// The inverse; what it gives of a singular cell means nothing.
pub fn inverse(l: Lattice) -> [[f64; 3]; 3]
    ensures { result ≡ inverse_of l }
{
    adjugate(l, 1.0 / volume(l))
}

fn times_row(r: [f64; 3], v: Vec3) -> f64
    ensures { result ≡ times_row r v }
{
    r[0] * v.x + r[1] * v.y + r[2] * v.z
}

pub fn times(m: [[f64; 3]; 3], v: Vec3) -> Vec3
    ensures { result ≡ times_of m v }
{
    Vec3 {
        x: times_row(m[0], v),
        y: times_row(m[1], v),
        z: times_row(m[2], v),
    }
}

// Three rows by value, beside an answer.
pub fn rows_of(m: [[f64; 3]; 3]) -> Rows
    ensures { result ≡ rows_of m }
{
    let x = m[0];
    let y = m[1];
    let z = m[2];
    Rows { x: x, y: y, z: z }
}

pub fn zero_rows() -> Rows
    ensures { result ≡ zero_rows }
{
    let row = [0.0, 0.0, 0.0];
    Rows {
        x: row,
        y: row,
        z: row,
    }
}
