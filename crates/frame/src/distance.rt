// Exact distances. The callers have tested the ranges.
ghost use Rattle.std.specs.Prelude.{◌≡◌, ◌*◌, ◌≤◌, ◌<◌};
ghost use Rattle.bins.specs.Edge.{gap};
ghost use Rattle.frame.specs.Distance.{along, squared_of, near_of};
ghost use Rattle.frame.specs.Steps.{FrameSized, Inside};

use crate::{Frame, Side, Spot};

fn gap_of(a: u32, b: u32) -> u32
    ensures { result ≡ gap a b }
{
    if a < b { b - a } else { a - b }
}

fn axis_distance(e: Side, a: u32, b: u32) -> u32
    requires { (a < e.edge) × (b < e.edge) }
    ensures { (result ≡ along e a b) × (result < e.edge) }
{
    let edge = e.edge;
    let round = e.round;
    let d = gap_of(a, b);
    if round {
        let back = edge - d;
        return if back < d { back } else { d };
    }
    d
}

fn square(d: u32) -> u64
    requires { d ≤ 1048576 }
    ensures { (result ≡ d * d) × (result ≤ 1099511627776) }
{
    (d as u64) * (d as u64)
}

// The square of the distance along one axis.
fn leg(e: Side, a: u32, b: u32) -> u64
    requires { (a < e.edge) × (b < e.edge) × (e.edge ≤ 1048576) }
    ensures { (result ≡ along e a b * along e a b) × (result ≤ 1099511627776) }
{
    square(axis_distance(e, a, b))
}

pub(crate) fn squared(f: Frame, a: Spot, b: Spot) -> u64
    requires frame_sized { FrameSized f }
    requires inside { Inside f a × Inside f b }
    ensures { result ≡ squared_of f a b }
{
    let x = leg(f.x, a.x, b.x);
    let y = leg(f.y, a.y, b.y);
    let z = leg(f.z, a.z, b.z);
    x + y + z
}

// Whether two atoms are within the radius.
pub(crate) fn is_near(f: Frame, a: Spot, b: Spot) -> bool
    requires frame_sized { FrameSized f }
    requires inside { Inside f a × Inside f b }
    ensures { result ≡ near_of f a b }
{
    squared(f, a, b) <= square(f.radius)
}
