// How long the list of a whole-number frame may be kept.
ghost use Rattle.field_structs.specs.Flat.{flat_yes_no};
ghost use Rattle.field_structs.specs.Shown.{Shown};
ghost use Rattle.field_structs.specs.Taken.{frame_of};
ghost use Rattle.skin.specs.Skin.{WithinSkinSays};

use field_structs::{FlatFrame, FlatYesNo};

// Whether each atom has moved, by nearest image, so that four times its squared displacement is at most the squared skin: then a list that was built over
// the old coordinates with the radius cutoff + skin has every pair of the moved ones that is within the cutoff. f.radius is the cutoff. Refusals 1, 2, 3.
#[unsafe(no_mangle)]
pub extern "C" fn tyn_within_skin(f: FlatFrame, skin: u32, old: &[u32], moved: &[u32]) -> FlatYesNo
    ensures { Shown flat_yes_no (WithinSkinSays (frame_of f) skin old.now moved.now) result }
{
    skin::within_skin(f.into(), skin, old, moved).into()
}
