// The tests of lengths and ranges that decide refusals 1 and 3. Total, and also for the crates above.
ghost use Rattle.std.specs.Prelude.{◌≡◌, ◌&&◌, ◌%◌, min, eqb, leb};
ghost use Rattle.virial.specs.Ranged.{plain, plain_row, plain_rows, plain_sum, unit, units_in_range};
ghost use Rattle.virial.specs.Calls.{merge_in_range, pair_in_range, virial_in_range, tensor_in_range};

use crate::{Sum, Units};
use cell::Vec3;

// 2^500, for every float that has no range of its own.
const PLAIN: f64 = cell::ranged::OTHER;

pub fn plain(x: f64) -> bool
    ensures { result ≡ plain x }
{
    ranges::is_within(PLAIN, x)
}

fn row_plain(r: [f64; 3]) -> bool
    ensures { result ≡ plain_row r }
{
    plain(r[0]) & plain(r[1]) & plain(r[2])
}

pub fn rows_plain(w: [[f64; 3]; 3]) -> bool
    ensures { result ≡ plain_rows w }
{
    row_plain(w[0]) & row_plain(w[1]) & row_plain(w[2])
}

pub fn sum_plain(s: Sum) -> bool
    ensures { result ≡ plain_sum s }
{
    plain(s.energy)
        & plain(s.xx)
        & plain(s.xy)
        & plain(s.xz)
        & plain(s.yx)
        & plain(s.yy)
        & plain(s.yz)
        & plain(s.zx)
        & plain(s.zy)
        & plain(s.zz)
}

fn unit_in_range(x: f64) -> bool
    ensures { result ≡ unit x }
{
    ranges::is_between(9.094947017729282e-13, 1099511627776.0, x)
}

pub fn units_in_range(u: Units) -> bool
    ensures { result ≡ units_in_range u }
{
    unit_in_range(u.force_to_accel)
        & unit_in_range(u.kb_ev_per_k)
        & unit_in_range(u.ke_coulomb)
        & unit_in_range(u.ev_per_a3_to_gpa)
}

// How far two lists both go.
pub fn shorter(a: usize, b: usize) -> usize
    ensures { result ≡ min a b }
{
    if a < b {
        return a;
    }
    b
}

// Both lengths whole atoms, and the target no shorter.
pub fn merge_fits(target: usize, source: usize) -> bool
    ensures { result ≡ (eqb (target % 3) 0 && eqb (source % 3) 0 && leb source target) }
{
    (target % 3 == 0) & (source % 3 == 0) & (source <= target)
}

pub fn merge_in_range(sum: Sum, forces: &[f64], other: Sum, added: &[f64]) -> bool
    ensures { result ≡ merge_in_range sum forces.now other added.now }
{
    sum_plain(sum)
        & ranges::all_within(PLAIN, forces)
        & sum_plain(other)
        & ranges::all_within(PLAIN, added)
}

pub fn virial_in_range(w: [[f64; 3]; 3], d: Vec3, f: Vec3) -> bool
    ensures { result ≡ virial_in_range w d f }
{
    rows_plain(w) & cell::ranged::vec_within(PLAIN, d) & cell::ranged::vec_within(PLAIN, f)
}

pub fn pair_in_range(sum: Sum, forces: &[f64], d: Vec3, f: Vec3) -> bool
    ensures { result ≡ pair_in_range sum forces.now d f }
{
    sum_plain(sum)
        & ranges::all_within(PLAIN, forces)
        & cell::ranged::vec_within(PLAIN, d)
        & cell::ranged::vec_within(PLAIN, f)
}

pub fn tensor_in_range(
    units: Units,
    volume: f64,
    virial: [[f64; 3]; 3],
    velocities: &[f64],
    masses: &[f64],
) -> bool
    ensures { result ≡ tensor_in_range units volume virial velocities.now masses.now }
{
    units_in_range(units)
        & plain(volume)
        & rows_plain(virial)
        & ranges::all_within(1048576.0, velocities)
        & ranges::all_between(0.0009765625, 1048576.0, masses)
}
