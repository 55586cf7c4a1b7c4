// Why the skin is enough. A list that was built at cutoff plus skin is kept while no atom has left its half of the skin: `within_skin` asks that,
// exactly; specs/Theorems.antt says that a kept list misses no pair within the cutoff, and by which laws of lengths.
#![tactic(auto)]

ghost use Rattle.std.specs.Prelude.{◌≡◌, true, ◌&&◌, ◌*◌, ◌/◌, ◌<◌, length};
ghost use Rattle.lists.specs.Lists.{up_to, every};
ghost use Rattle.frame.specs.Distance.{spot_of, squared_of, frame_ok, spot_ok};
ghost use Rattle.frame.specs.Build.{ranges_ok};
ghost use Rattle.skin.specs.Skin.{moved_little, counts_differ, WithinSkinSays};

use answer::Refusal;
use frame::{Frame, Spot};

fn counts_differ(old: usize, new: usize) -> bool
    ensures { result ≡ counts_differ old new }
{
    (old % 3 != 0) | (new % 3 != 0) | (old / 3 != new / 3)
}

fn spot_at(xs: &[u32], i: usize) -> Spot
    requires { i < length xs.now / 3 }
    ensures { result ≡ spot_of xs.now i }
{
    Spot {
        x: xs[3 * i],
        y: xs[3 * i + 1],
        z: xs[3 * i + 2],
    }
}

// The squared nearest-image displacement.
fn squared_move(f: Frame, a: Spot, b: Spot) -> u64
    requires { frame_ok f && spot_ok f a && spot_ok f b ≡ true }
    ensures { result ≡ squared_of f a b }
{
    let d = frame::squared_distance(f, a, b);
    match d {
        Ok(n) => n,
        Err(_) => 0,
    }
}

// The largest squared displacement of which four times are within the squared skin: a quarter, rounded down.
fn most_of(skin: u32) -> u64
    ensures { result ≡ skin * skin / 4 }
{
    (skin as u64) * (skin as u64) / 4
}

fn all_moved_little(f: Frame, skin: u32, old: &[u32], new: &[u32]) -> bool
    requires { (ranges_ok f old.now ≡ true) × (ranges_ok f new.now ≡ true) × (length old.now / 3 ≡ length new.now / 3) }
    ensures { result ≡ every (λ k. moved_little f skin (spot_of old.now k) (spot_of new.now k)) (up_to (length old.now / 3)) }
{
    let most = most_of(skin);
    let n = old.len() / 3;
    for i in 0..n {
        if most < squared_move(f, spot_at(old, i), spot_at(new, i)) {
            return false;
        }
    }
    true
}

// Whether each atom has moved, by nearest image, so that four times its squared displacement is at most the squared skin. The frame's radius is the
// cutoff; the list was built at cutoff plus skin, and 2 and 3 are what a build there refuses. Refusals 1, 2, 3.
pub fn within_skin(f: Frame, skin: u32, old: &[u32], new: &[u32]) -> Result<bool, Refusal>
    ensures { WithinSkinSays f skin old.now new.now result }
{
    if counts_differ(old.len(), new.len()) {
        return Err(Refusal::Lengths);
    }
    let n = old.len() / 3;
    if 16384 < n {
        return Err(Refusal::TooMany { atoms: n });
    }
    // exact, and past the radius of any frame before it is past 32 bits
    let radius = f.radius as u64 + skin as u64;
    if 1048576 < radius {
        return Err(Refusal::Range);
    }
    let x = f.x;
    let y = f.y;
    let z = f.z;
    let wide = Frame {
        x: x,
        y: y,
        z: z,
        radius: radius as u32,
    };
    if !frame::asked::ranges_ok(wide, old) {
        return Err(Refusal::Range);
    }
    if !frame::asked::ranges_ok(wide, new) {
        return Err(Refusal::Range);
    }
    Ok(all_moved_little(wide, skin, old, new))
}
