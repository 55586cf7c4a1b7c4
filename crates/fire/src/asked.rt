// What is asked before the first evaluation, in 01's order: an evaluation's tests with those of the options and of the motion. Total.
ghost use Rattle.std.specs.Prelude.{◌≡◌};
ghost use Rattle.fire.specs.Asked.{options_ok, settling_ok};
ghost use Rattle.fire.specs.Calls.{settling_on, settling_asked};

use crate::FireOptions;
use answer::Refusal;
use evaluate::{Molecule, Setting};
use neighbor::State;

fn options_ok(o: FireOptions) -> bool
    ensures { result ≡ options_ok o }
{
    (o.max_iters <= 100000)
        & virial::ranged::plain(o.force_tol)
        & verlet::ranged::time_step(o.dt)
        & verlet::ranged::time_step(o.dt_max)
}

fn settling_ok(o: FireOptions, masses: &[f64], velocities: &[f64]) -> bool
    ensures { result ≡ settling_ok o masses.now velocities.now }
{
    options_ok(o)
        & ranges::all_between(0.0009765625, 1048576.0, masses)
        & ranges::all_within(cell::ranged::ENTRY, velocities)
}

// Refusals 1, 2, 6, 3, 4, 5.
pub(crate) fn asked(
    o: FireOptions,
    setting: Setting,
    s: State,
    molecule: &Molecule,
    masses: &[f64],
    exclusions: &[u32],
    positions: &[f64],
    velocities: &[f64],
    pairs: &[u32],
    references: &[f64],
    starts: &[u32],
    items: &[u32],
    forces: &[f64],
) -> Result<(), Refusal>
    ensures { result ≡ settling_asked o (settling_on o setting s molecule.now masses.now exclusions.now positions.now velocities.now pairs.now references.now starts.now items.now forces.now) }
{
    let fits = verlet_step::motion_fits(positions.len(), velocities.len(), masses.len());
    let inside = settling_ok(o, masses, velocities);
    evaluate::asked::asked(
        fits, inside, setting, s, molecule, positions, exclusions, pairs, references, starts,
        items, forces,
    )
}
