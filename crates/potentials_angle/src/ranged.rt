// The range tests of the term's numbers and table (02, No. 1): refusal 3. Total where it is public, and also for the crates above.
ghost use Rattle.std.specs.Prelude.{◌≡◌, ◌/◌, ◌<◌, length};
ghost use Rattle.potentials_angle.specs.Ranged.{angle_in_range, angle_row, per_angle_in_range};

use crate::Angle;

pub fn angle_in_range(angle: Angle) -> bool
    ensures { result ≡ angle_in_range angle }
{
    ranges::is_within(cell::ranged::ENTRY, angle.k) & ranges::is_between(-1.0, 1.0, angle.rest)
}

// Row r of per_angle.
pub(crate) fn angle_row(per_angle: &[f64], r: usize) -> Angle
    requires { r < length per_angle.now / 2 }
    ensures { result ≡ angle_row per_angle.now r }
{
    Angle {
        k: per_angle[2 * r],
        rest: per_angle[2 * r + 1],
    }
}

// Every row.
pub fn per_angle_in_range(per_angle: &[f64]) -> bool
    ensures { result ≡ per_angle_in_range per_angle.now }
{
    let m = per_angle.len() / 2;
    for r in 0..m {
        let a = angle_row(per_angle, r);
        if !angle_in_range(a) {
            return false;
        }
    }
    true
}
