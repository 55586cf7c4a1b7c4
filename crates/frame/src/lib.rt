// The whole-number frame: atoms at whole coordinates in a box whose axes are periodic or open. The exact nearest-image distance, and the list of
// all pairs within a radius. specs/Build.antt says what a build answers and leaves in what is lent, specs/Listed.antt what that means, specs/Images.antt
// that no second image of an atom hides behind a listed pair.
#![tactic(auto)]

use answer::Refusal;

pub mod asked;
mod building;
mod distance;
mod laying;
mod listing;
mod sweep;

ghost use Rattle.frame.specs.Build.{given, BuildSays};
ghost use Rattle.frame.specs.Distance.{SquaredSays};
ghost use Rattle.frame.specs.Listed.{BuildLists};

// One axis of the box: its edge, and whether it is periodic.
#[derive(Clone, Copy)]
pub struct Side {
    pub edge: u32,
    pub round: bool,
}

// Edges and radius to 2^20; twice the radius may equal a periodic edge but not pass it.
#[derive(Clone, Copy)]
pub struct Frame {
    pub x: Side,
    pub y: Side,
    pub z: Side,
    pub radius: u32,
}

// An atom's coordinates.
#[repr(C)]
#[derive(Clone, Copy)]
pub struct Spot {
    pub x: u32,
    pub y: u32,
    pub z: u32,
}

// The pairs stored, the distances evaluated, and whether no grid was laid.
#[derive(Drop)]
pub struct Built {
    pub pairs: u32,
    pub checks: u32,
    pub fallback: bool,
}

// The exact squared distance of two atoms' nearest images; refusal 3 where the frame or a coordinate is out of range.
pub fn squared_distance(f: Frame, a: Spot, b: Spot) -> Result<u64, Refusal>
    ensures { SquaredSays f a b result }
{
    if !asked::frame_ok(f) {
        return Err(Refusal::Range);
    }
    if !asked::spot_ok(f, a) {
        return Err(Refusal::Range);
    }
    if !asked::spot_ok(f, b) {
        return Err(Refusal::Range);
    }
    Ok(distance::squared(f, a, b))
}

// The pairs within the radius that the exclusion table leaves, into the lent pairs; the grid tables where a grid is laid. Refusals 1, 2, 3, 5, 7, 8.
pub fn build(
    f: Frame,
    coordinates: &[u32],
    exclusions: &[u32],
    pairs: &mut [u32],
    starts: &mut [u32],
    items: &mut [u32],
) -> Result<Built, Refusal>
    ensures says { BuildSays (given f coordinates.now exclusions.now pairs.old starts.old items.old) result pairs.new starts.new items.new }
    ensures lists { BuildLists (given f coordinates.now exclusions.now pairs.old starts.old items.old) result pairs.new }
{
    asked::asked(f, coordinates, exclusions, items.len())?;
    if coordinates.len() / 3 < 2 {
        return Ok(Built {
            pairs: 0,
            checks: 0,
            fallback: false,
        });
    }
    building::run(f, coordinates, exclusions, pairs, starts, items)
}
