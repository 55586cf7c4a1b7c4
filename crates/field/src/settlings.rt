// Settling a freshly packed box (fire.rs).
ghost use Rattle.field_structs.specs.Settlings.{fire_options_of, flat_fired};
ghost use Rattle.field_structs.specs.Shown.{Shown};
ghost use Rattle.field_structs.specs.Taken.{setting_of, state_of};
ghost use Rattle.fire.specs.Calls.{FireSays, settling_of};
ghost use Rattle.potentials_pair.specs.Species.{tables};

use evaluate::Molecule;
use field_structs::{FlatFireOptions, FlatFired, FlatSetting, FlatState};
use potentials::BondRows;
use potentials_angle::AngleRows;
use potentials_pair::SpeciesTables;

// Relaxes the positions to a local minimum of the energy by damped steps: the first evaluation, the atoms at rest, then iterations until the largest force
// component is within the tolerance or the limit is reached. forces is a room. A refusal inside an iteration tells it and leaves what a step stopped there
// leaves. Refusals 1, 2, 6, 3, 4, 5, then 7, 8, in an iteration also the drift (3, place 1).
#[unsafe(no_mangle)]
pub extern "C" fn tyn_fire(
    o: FlatFireOptions,
    setting: FlatSetting,
    s: FlatState,
    own_ids: &[u32],
    own_params: &[f64],
    ids: &[u32],
    params: &[f64],
    species: &[u32],
    charges: &[f64],
    bonds: &[u32],
    lengths: &[f64],
    ks: &[f64],
    angles: &[u32],
    per_angle: &[f64],
    masses: &[f64],
    exclusions: &[u32],
    positions: &mut [f64],
    velocities: &mut [f64],
    pairs: &mut [u32],
    references: &mut [f64],
    starts: &mut [u32],
    items: &mut [u32],
    forces: &mut [f64],
) -> FlatFired
    ensures { Shown flat_fired (λ a. FireSays (fire_options_of o) (settling_of (fire_options_of o) (setting_of setting) (state_of s) (tables own_ids.now own_params.now ids.now params.now) species.now charges.now bonds.now lengths.now ks.now angles.now per_angle.now masses.now exclusions.now positions.old velocities.old pairs.old references.old starts.old items.old forces.old) a positions.new velocities.new pairs.new references.new starts.new items.new forces.new) result }
{
    let molecule = Molecule {
        tables: SpeciesTables {
            own_ids,
            own_params,
            ids,
            params,
        },
        species,
        charges,
        bonds: BondRows {
            ends: bonds,
            lengths,
            ks,
        },
        angles: AngleRows {
            corners: angles,
            per_angle,
        },
    };
    fire::fire(
        o.into(),
        setting.into(),
        s.into(),
        &molecule,
        masses,
        exclusions,
        positions,
        velocities,
        pairs,
        references,
        starts,
        items,
        forces,
    )
    .into()
}
