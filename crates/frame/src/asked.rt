// The tests of a frame, of its atoms and of what is lent: total, for `build` and for the crates above.
ghost use Rattle.std.specs.Prelude.{◌≡◌, ◌/◌, length};
ghost use Rattle.lists.specs.Lists.{up_to, every};
ghost use Rattle.frame.specs.Distance.{spot_of, edge_ok, side_ok, frame_ok, spot_ok};
ghost use Rattle.frame.specs.Build.{lengths_bad, ranges_ok, frame_asked};

use crate::laying::spot_at;
use crate::{Frame, Side, Spot};
use answer::Refusal;

fn edge_ok(e: u32) -> bool
    ensures { result ≡ edge_ok e }
{
    bins_rules::is_edge(e)
}

// On a periodic axis twice the radius is at most the edge: past that a second image of an atom could be within the radius.
fn side_ok(e: Side, radius: u32) -> bool
    ensures { result ≡ side_ok e radius }
{
    let edge = e.edge;
    edge_ok(edge) & (!e.round | (2 * (radius as u64) <= edge as u64))
}

pub fn frame_ok(f: Frame) -> bool
    ensures { result ≡ frame_ok f }
{
    let radius = f.radius;
    side_ok(f.x, radius) & side_ok(f.y, radius) & side_ok(f.z, radius) & (radius <= 1048576)
}

pub fn spot_ok(f: Frame, a: Spot) -> bool
    ensures { result ≡ spot_ok f a }
{
    (a.x < f.x.edge) & (a.y < f.y.edge) & (a.z < f.z.edge)
}

fn spots_ok(f: Frame, xs: &[u32]) -> bool
    ensures { result ≡ every (λ k. spot_ok f (spot_of xs.now k)) (up_to (length xs.now / 3)) }
{
    let n = xs.len() / 3;
    for i in 0..n {
        if !spot_ok(f, spot_at(xs, i)) {
            return false;
        }
    }
    true
}

pub fn ranges_ok(f: Frame, xs: &[u32]) -> bool
    ensures { result ≡ ranges_ok f xs.now }
{
    if !frame_ok(f) {
        return false;
    }
    spots_ok(f, xs)
}

fn lengths_bad(xs: usize, table: usize, items: usize) -> bool
    ensures { result ≡ lengths_bad xs table items }
{
    (xs % 3 != 0) | (table % 2 != 0) | (items < xs / 3)
}

// Whether a build may go on: refusals 1, 2, 3, 5.
pub fn asked(f: Frame, xs: &[u32], table: &[u32], items: usize) -> Result<(), Refusal>
    ensures { result ≡ frame_asked f xs.now table.now items }
{
    if lengths_bad(xs.len(), table.len(), items) {
        return Err(Refusal::Lengths);
    }
    let n = xs.len() / 3;
    if 16384 < n {
        return Err(Refusal::TooMany { atoms: n });
    }
    if !ranges_ok(f, xs) {
        return Err(Refusal::Range);
    }
    if !exclusions::kernel::is_table(table) {
        return Err(Refusal::Order);
    }
    Ok(())
}
