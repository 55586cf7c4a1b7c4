// Shell counts over a run of whole-number frames.
ghost use Rattle.field_structs.specs.FlatCounted.{flat_counted};
ghost use Rattle.field_structs.specs.Shown.{Shown};
ghost use Rattle.field_structs.specs.Taken.{frame_of};
ghost use Rattle.frame.specs.Build.{given};
ghost use Rattle.shells.specs.Shells.{AddShellsSays, adding};

use field_structs::{FlatBuilt, FlatFrame};

// The pairs of tyn_frame_build, each added to the total of its shell: its squared distance divided by width, the last shell open upward. Refusals 1, 2,
// 3 (also a width of 0 or no totals), 5, 7, 8, 13 (a total would pass 2^64 - 1: the totals are as they came, the list is there).
#[unsafe(no_mangle)]
pub extern "C" fn tyn_add_shells(
    f: FlatFrame,
    coordinates: &[u32],
    exclusions: &[u32],
    width: u64,
    totals: &mut [u64],
    pairs: &mut [u32],
    starts: &mut [u32],
    items: &mut [u32],
) -> FlatBuilt
    ensures { Shown flat_counted (λ a. AddShellsSays (adding (given (frame_of f) coordinates.now exclusions.now pairs.old starts.old items.old) width totals.old) a totals.new pairs.new starts.new items.new) result }
{
    shells::add_shells(
        f.into(),
        coordinates,
        exclusions,
        width,
        totals,
        pairs,
        starts,
        items,
    )
    .into()
}
