// Whether an atom has strayed from its reference: the squared displacement against the limit, by its image; equality has not.
ghost use Rattle.std.specs.Prelude.{◌≡◌};
ghost use Rattle.neighbor_asked.specs.Strays.{bounded, strayed, in_box, still, RoomySays, EnoughSays, quiet_at};

use cell::{Vec3, vectors};
use cell_prepared::Prepared;

// Whether a displacement exceeds the limit, by its image.
fn is_far_long(p: Prepared, limit: f64, a: Vec3, b: Vec3) -> bool
    ensures { result ≡ strayed p limit a b }
{
    let image = cell_prepared::image_in(p, vectors::sub(a, b));
    let d = image.diff;
    limit < vectors::norm2(d)
}

// Whether no length is an infinity.
pub fn is_bounded(l: Vec3) -> bool
    ensures { result ≡ bounded l }
{
    (l.x < 1e300) & (l.y < 1e300) & (l.z < 1e300)
}

fn in_box(l: Vec3, a: Vec3, b: Vec3) -> bool
    ensures { result ≡ in_box l a b }
{
    is_bounded(l)
        & cell_square::in_length(l.x, a.x, b.x)
        & cell_square::in_length(l.y, a.y, b.y)
        & cell_square::in_length(l.z, a.z, b.z)
}

// The same; in a box by the squares alone, and no call, where the atom is less than a length from its reference on each axis.
pub fn is_far(p: Prepared, limit: f64, a: Vec3, b: Vec3) -> bool
    ensures { result ≡ strayed p limit a b }
{
    let l = p.short;
    if in_box(l, a, b) {
        let d = Vec3 {
            x: cell_square::side(l.x, a.x, b.x),
            y: cell_square::side(l.y, a.y, b.y),
            z: cell_square::side(l.z, a.z, b.z),
        };
        return limit < vectors::norm2(d);
    }
    is_far_long(p, limit, a, b)
}

// Whether an atom is in a box and has not strayed, by the squares alone: no branch.
pub fn is_still(p: Prepared, limit: f64, a: Vec3, b: Vec3) -> bool
    ensures { result ≡ still p limit a b }
{
    let l = p.short;
    let d = Vec3 {
        x: cell_square::side(l.x, a.x, b.x),
        y: cell_square::side(l.y, a.y, b.y),
        z: cell_square::side(l.z, a.z, b.z),
    };
    let far = limit < vectors::norm2(d);
    in_box(l, a, b) & !far
}

fn is_roomy(len: f64, t: f64) -> bool
    ensures { RoomySays len t result }
{
    (len < 1e300) & (t < len)
}

// Whether t is so small that an atom has not strayed where each of its numbers is at most t from its reference: then nothing is squared. In a box the image is
// no further than the displacement, and rounding keeps the order.
pub fn is_enough(p: Prepared, limit: f64, t: f64) -> bool
    ensures { EnoughSays p limit t result }
{
    let l = p.short;
    let most = vectors::norm2(Vec3 { x: t, y: t, z: t });
    is_roomy(l.x, t) & is_roomy(l.y, t) & is_roomy(l.z, t) & (most <= limit)
}

// Whether a coordinate is within half of its range, and at most t from its reference. With t below that half too the reference needs no test of its own.
pub fn is_quiet(t: f64, x: f64, r: f64) -> bool
    ensures { result ≡ quiet_at t x r }
{
    ranges::is_within(524288.0, x) & ranges::is_within(t, x - r)
}
