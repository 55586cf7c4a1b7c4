// Which grid the atoms are laid into, if any.
ghost use Rattle.std.specs.Prelude.{◌≡◌, ◌≤◌, ltb, ◌||◌};
ghost use Rattle.neighbor_grid.specs.Grid.{bins_in, size_of, narrow};
ghost use Rattle.neighbor_grid.specs.Steps.{sized, plan_sizes, plan_of};

use crate::measuring::Measure;
use bins::{Axis, Grid, Plan};

fn bins_in(width: f64, r: f64) -> i64
    ensures { result ≡ bins_in width r }
{
    float::to_i64(float::floor(width / r))
}

fn size_of(d: i64) -> u64
    ensures { (result ≡ size_of d) × (1 ≤ result) }
{
    if d < 1 {
        return 1;
    }
    d as u64
}

fn size_in(width: f64, r: f64) -> u64
    ensures { (result ≡ size_of (bins_in width r)) × (1 ≤ result) }
{
    size_of(bins_in(width, r))
}

// A periodic axis with fewer than three bins.
fn is_narrow(round: bool, size: u64) -> bool
    ensures { result ≡ narrow (record { size = size; round = round }) }
{
    bins_rules::is_narrow(round, size)
}

fn axis(round: bool, size: u64) -> Axis
    requires { size ≤ 32768 }
    ensures { result ≡ record { size = size; round = round } }
{
    Axis {
        size: size as u16,
        round: round,
    }
}

fn grid_of(m: Measure, nx: u64, ny: u64, nz: u64) -> Grid
    requires { (nx ≤ 32768) × (ny ≤ 32768) × (nz ≤ 32768) }
    ensures { result ≡ sized m nx ny nz }
{
    Grid {
        x: axis(m.px, nx),
        y: axis(m.py, ny),
        z: axis(m.pz, nz),
    }
}

// Whether one size alone is more than there can be cells.
fn is_long(nx: u64, ny: u64, nz: u64) -> bool
    ensures { result ≡ ltb 32768 nx || ltb 32768 ny || ltb 32768 nz }
{
    (32768 < nx) | (32768 < ny) | (32768 < nz)
}

// The grid of three numbers of bins, or why there is none.
fn plan_sizes(m: Measure, nx: u64, ny: u64, nz: u64, starts: usize) -> Plan
    requires { (1 ≤ nx) × (1 ≤ ny) × (1 ≤ nz) }
    ensures { result ≡ plan_sizes (sized m nx ny nz) starts }
{
    if is_narrow(m.px, nx) | is_narrow(m.py, ny) | is_narrow(m.pz, nz) {
        return Plan::AllPairs;
    }
    if is_long(nx, ny, nz) {
        return Plan::TooMany;
    }
    let cells = nx * ny * nz;
    if bins_rules::is_few(cells) {
        return Plan::AllPairs;
    }
    if (32768 < cells) | (starts as u64 <= cells) {
        return Plan::TooMany;
    }
    Plan::Laid(grid_of(m, nx, ny, nz))
}

pub(crate) fn plan_of(m: Measure, r: f64, starts: usize) -> Plan
    ensures { result ≡ plan_of m r starts }
{
    if (r <= 0.0) | m.singular {
        return Plan::AllPairs;
    }
    let nx = size_in(m.widths.x, r);
    let ny = size_in(m.widths.y, r);
    let nz = size_in(m.widths.z, r);
    plan_sizes(m, nx, ny, nz, starts)
}
