// The evaluation without tests, for the crates above: total. No public call.
ghost use Rattle.std.specs.Prelude.{◌≡◌, min, length};
ghost use Rattle.potentials_pair.specs.Pull.{held};
ghost use Rattle.evaluate.specs.Terms.{terms_of};
ghost use Rattle.evaluate.specs.Calls.{job_on};
ghost use Rattle.evaluate.specs.Steps.{scratch_length, terms_over, evaluated_from, AfterListSays, SettleSays};

use crate::{Evaluated, Molecule, Setting, merging};
use neighbor::{Question, State, Updated};
use virial::Sum;

// Three floats for each of the most atoms.
fn scratch() -> [f64; 49152]
    ensures { length result ≡ scratch_length }
{
    [0.0; 49152]
}

// The terms over listed pairs, in a scratch as long as the forces.
fn combine(
    setting: Setting,
    molecule: &Molecule,
    xs: &[f64],
    pairs: &[u32],
    forces: &mut [f64],
) -> Sum
    ensures { held result forces.new ≡ terms_over (terms_of setting molecule.now) setting.cell xs.now pairs.now (min (length forces.old) scratch_length) (length forces.old) }
{
    let n = virial::ranged::shorter(forces.len(), 49152);
    let mut room = scratch();
    merging::all(&mut room[..n], setting, molecule, xs, pairs, forces)
}

// What became of the list, with a sum.
fn with_sum(u: Updated, sum: Sum) -> Evaluated
    ensures { result ≡ evaluated_from u sum }
{
    let done = u.done;
    let state = u.state;
    Evaluated {
        done,
        rebuilt: u.rebuilt,
        state,
        sum,
    }
}

// After the list: the terms over what is listed. Where the list is refused (7, 8) the forces stay, and the sum is zero.
fn after_list(
    forces: &mut [f64],
    u: Updated,
    setting: Setting,
    molecule: &Molecule,
    xs: &[f64],
    pairs: &[u32],
) -> Evaluated
    ensures { AfterListSays u (terms_of setting molecule.now) setting.cell xs.now pairs.now forces.old result forces.new }
{
    let done = u.done;
    if let Err(_) = done {
        return with_sum(u, virial::kernel::zero());
    }
    let state = u.state;
    let part = neighbor::listed(state, pairs);
    let sum = combine(setting, molecule, xs, part, forces);
    with_sum(u, sum)
}

// The list brought up to date, then the terms.
pub fn settle(
    setting: Setting,
    s: State,
    molecule: &Molecule,
    positions: &[f64],
    exclusions: &[u32],
    pairs: &mut [u32],
    references: &mut [f64],
    starts: &mut [u32],
    items: &mut [u32],
    forces: &mut [f64],
) -> Evaluated
    ensures { SettleSays (job_on setting s molecule.now positions.now exclusions.now pairs.old references.old starts.old items.old forces.old) result pairs.new references.new starts.new items.new forces.new }
{
    let cell = setting.cell;
    let u = neighbor::kernel::update(
        Question::Outdated,
        s,
        cell,
        positions,
        exclusions,
        pairs,
        references,
        starts,
        items,
    );
    after_list(forces, u, setting, molecule, positions, pairs)
}
