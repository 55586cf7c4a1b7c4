// The step (verlet.rs).
ghost use Rattle.potentials_pair.specs.Species.{tables};
ghost use Rattle.field_structs.specs.Flat.{flat_stepped};
ghost use Rattle.field_structs.specs.Shown.{Shown};
ghost use Rattle.field_structs.specs.Taken.{pace_of, setting_of, state_of};
ghost use Rattle.verlet_step.specs.Calls.{FinishSays, StepLists, StepSays, motion_of};

use evaluate::Molecule;
use field_structs::{FlatPace, FlatSetting, FlatState, FlatStepped};
use potentials::BondRows;
use potentials_angle::AngleRows;
use potentials_pair::SpeciesTables;

// One step of velocity Verlet: half a kick and the drift, the evaluation, half a kick, the thermostat. forces and potential are those at the positions.
// Where a 7 or 8 stopped it after the drift (stopped is 1), positions and velocities are drifted, forces and potential old: call tyn_finish with more
// room. Refusals 1, 2, 6, 3, 4, 5, the drift (3, place 1), 7, 8.
#[unsafe(no_mangle)]
pub extern "C" fn tyn_step(
    setting: FlatSetting,
    pace: FlatPace,
    s: FlatState,
    potential: f64,
    own_ids: &[u32],
    own_params: &[f64],
    ids: &[u32],
    params: &[f64],
    species: &[u32],
    charges: &[f64],
    bonds: &[u32],
    lengths: &[f64],
    ks: &[f64],
    angles: &[u32],
    per_angle: &[f64],
    masses: &[f64],
    exclusions: &[u32],
    positions: &mut [f64],
    velocities: &mut [f64],
    pairs: &mut [u32],
    references: &mut [f64],
    starts: &mut [u32],
    items: &mut [u32],
    forces: &mut [f64],
) -> FlatStepped
    ensures { let m = motion_of (setting_of setting) (pace_of pace).dt (state_of s) potential (tables own_ids.now own_params.now ids.now params.now) species.now charges.now bonds.now lengths.now ks.now angles.now per_angle.now masses.now exclusions.now positions.old velocities.old pairs.old references.old starts.old items.old forces.old in Shown flat_stepped (λ a. StepSays (pace_of pace).thermostat m a positions.new velocities.new pairs.new references.new starts.new items.new forces.new × StepLists m a positions.new pairs.new) result }
{
    let molecule = Molecule {
        tables: SpeciesTables {
            own_ids,
            own_params,
            ids,
            params,
        },
        species,
        charges,
        bonds: BondRows {
            ends: bonds,
            lengths,
            ks,
        },
        angles: AngleRows {
            corners: angles,
            per_angle,
        },
    };
    verlet_step::step(
        setting.into(),
        pace.into(),
        s.into(),
        potential,
        &molecule,
        masses,
        exclusions,
        positions,
        velocities,
        pairs,
        references,
        starts,
        items,
        forces,
    )
    .into()
}

// The rest of a step that a 7 or 8 stopped: the evaluation, the second half kick, the thermostat. Velocities to 2^500. Refusals 1, 2, 6, 3, 4, 5, 7, 8.
#[unsafe(no_mangle)]
pub extern "C" fn tyn_finish(
    setting: FlatSetting,
    pace: FlatPace,
    s: FlatState,
    potential: f64,
    own_ids: &[u32],
    own_params: &[f64],
    ids: &[u32],
    params: &[f64],
    species: &[u32],
    charges: &[f64],
    bonds: &[u32],
    lengths: &[f64],
    ks: &[f64],
    angles: &[u32],
    per_angle: &[f64],
    masses: &[f64],
    exclusions: &[u32],
    positions: &[f64],
    velocities: &mut [f64],
    pairs: &mut [u32],
    references: &mut [f64],
    starts: &mut [u32],
    items: &mut [u32],
    forces: &mut [f64],
) -> FlatStepped
    ensures { let m = motion_of (setting_of setting) (pace_of pace).dt (state_of s) potential (tables own_ids.now own_params.now ids.now params.now) species.now charges.now bonds.now lengths.now ks.now angles.now per_angle.now masses.now exclusions.now positions.now velocities.old pairs.old references.old starts.old items.old forces.old in Shown flat_stepped (λ a. FinishSays (pace_of pace).thermostat m a velocities.new pairs.new references.new starts.new items.new forces.new × StepLists m a positions.now pairs.new) result }
{
    let molecule = Molecule {
        tables: SpeciesTables {
            own_ids,
            own_params,
            ids,
            params,
        },
        species,
        charges,
        bonds: BondRows {
            ends: bonds,
            lengths,
            ks,
        },
        angles: AngleRows {
            corners: angles,
            per_angle,
        },
    };
    verlet_step::finish(
        setting.into(),
        pace.into(),
        s.into(),
        potential,
        &molecule,
        masses,
        exclusions,
        positions,
        velocities,
        pairs,
        references,
        starts,
        items,
        forces,
    )
    .into()
}
