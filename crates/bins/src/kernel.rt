// The work on a grid that the frames share. No public call: nothing is tested here that the frames have tested, and every function is total.
ghost use Rattle.std.specs.Prelude.{◌≡◌, ◌<◌};
ghost use Rattle.bins.specs.Axis.{stepped};
ghost use Rattle.bins.specs.Listing.{pushed};
ghost use Rattle.bins.specs.Stencil.{cells, flatten, home_of, offset, reached, UnitStep};

pub use crate::sorting::sort;
use crate::{Axis, Cell, Grid};

fn wide(x: u16) -> u64
    ensures { (result ≡ x) × (result < 65536) }
{
    x as u64
}

pub fn cell_count(g: Grid) -> u64
    ensures { result ≡ cells g }
{
    wide(g.x.size) * wide(g.y.size) * wide(g.z.size)
}

// The cell's place in the tables.
pub fn index(g: Grid, c: Cell) -> u64
    ensures { result ≡ flatten g c }
{
    (wide(c.x) * wide(g.y.size) + wide(c.y)) * wide(g.z.size) + wide(c.z)
}

// The cell at a place of the tables.
pub fn home_of(g: Grid, h: u64) -> Cell
    ensures { result ≡ home_of g h }
{
    let nx = wide(g.x.size);
    let ny = wide(g.y.size);
    let nz = wide(g.z.size);
    if nx * ny * nz <= h {
        return Cell { x: 0, y: 0, z: 0 };
    }
    let line = h / nz;
    Cell {
        x: (line / ny) as u16,
        y: (line % ny) as u16,
        z: (h % nz) as u16,
    }
}

// Where a step of -1, 0 or 1 leads, by the sign of the step: no signed arithmetic.
fn step_on(a: Axis, c: u16, d: i32) -> Option<u16>
    requires { UnitStep d }
    ensures { result ≡ stepped a c d }
{
    let size = a.size;
    let round = a.round;
    if size <= c {
        return None;
    }
    if d == 0 {
        return Some(c);
    }
    if d < 0 {
        if 0 < c {
            return Some(c - 1);
        }
        if round {
            return Some(size - 1);
        }
        return None;
    }
    if c + 1 < size {
        return Some(c + 1);
    }
    if round {
        return Some(0);
    }
    None
}

// The 13 forward half-stencil cell offsets plus the home cell `(0,0,0)`.
const HALF_STENCIL: [[i32; 3]; 14] = [
    [0, 0, 0],
    [0, 0, 1],
    [0, 1, -1],
    [0, 1, 0],
    [0, 1, 1],
    [1, -1, -1],
    [1, -1, 0],
    [1, -1, 1],
    [1, 0, -1],
    [1, 0, 0],
    [1, 0, 1],
    [1, 1, -1],
    [1, 1, 0],
    [1, 1, 1],
];

// The step of row s on axis k; past the rows, none.
fn step_of(s: usize, k: usize) -> i32
    ensures { result ≡ offset s k }
{
    if 14 <= s {
        return 0;
    }
    if 3 <= k {
        return 0;
    }
    HALF_STENCIL[s][k]
}

// The cell reached by row s from a home cell, or none where the step leaves an aperiodic boundary.
pub fn offset_index(g: Grid, c: Cell, s: usize) -> Option<Cell>
    ensures { result ≡ reached g c s }
{
    let x = step_on(g.x, c.x, step_of(s, 0))?;
    let y = step_on(g.y, c.y, step_of(s, 1))?;
    let z = step_on(g.z, c.z, step_of(s, 2))?;
    Some(Cell { x, y, z })
}

// The pair at its place, where there is room for it.
pub fn push(pairs: &mut [u32], count: usize, low: u32, high: u32)
    ensures { pairs.new ≡ pushed pairs.old count low high }
{
    if count < pairs.len() / 2 {
        pairs[2 * count] = low;
        pairs[2 * count + 1] = high;
    }
}
