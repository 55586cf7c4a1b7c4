// The evaluator, which replaces the Rust's closure: the pair list brought up to date, then each present term, Lennard-Jones, Coulomb, bonds, angles, from zero and
// merged in this order. specs/Calls.antt says what it answers and leaves; `kernel` has the work and `asked` the tests, for the crates above.
#![tactic(auto)]

use answer::Refusal;
use cell::Lattice;
use neighbor::State;
use potentials::coulomb::Coulomb;
use potentials::{Bond, BondRows};
use potentials_angle::{Angle, AngleRows};
use potentials_pair::{Lj, SpeciesTables};
use virial::{Sum, Units};

pub mod asked;
pub mod kernel;
mod merging;

ghost use Rattle.std.specs.Prelude.{◌≡◌, false, Err};
ghost use Rattle.virial.specs.Virial.{zero_sum};
ghost use Rattle.evaluate.specs.Calls.{job_on, EvaluateSays, EvaluateLists};

// What an evaluation goes by besides its tables: the terms, each absent or present with its numbers, the units, and the cell.
#[derive(Clone, Copy)]
pub struct Setting {
    pub lj: Option<Lj>,
    pub coulomb: Option<Coulomb>,
    pub bond: Option<Bond>,
    pub angle: Option<Angle>,
    pub units: Units,
    pub cell: Option<Lattice>,
}

// What an evaluation is computed over besides the positions, as it is lent: the species tables; the species and the charge of each atom; the bonds; the angles.
#[derive(Clone, Copy)]
pub struct Molecule<'a> {
    pub tables: SpeciesTables<'a, 'a>,
    pub species: &'a [u32],
    pub charges: &'a [f64],
    pub bonds: BondRows<'a>,
    pub angles: AngleRows<'a>,
}

// Energy, forces and virial, or why not; whether the list was built anew; its state, which comes back in every case; and the sum, zero where refused. The
// forces stand in what the caller lends.
#[derive(Drop)]
pub struct Evaluated {
    pub done: Result<(), Refusal>,
    pub rebuilt: bool,
    pub state: State,
    pub sum: Sum,
}

// A refusal that leaves the state as it came.
fn refused(s: State, why: Refusal) -> Evaluated
    ensures { result ≡ record { done = Err why; rebuilt = false; state = s; sum = zero_sum } }
{
    Evaluated {
        done: Err(why),
        rebuilt: false,
        state: s,
        sum: virial::kernel::zero(),
    }
}

// The terms over the list brought up to date; refusals 1, 2, 6, 3, 4, 5, 7, 8.
pub fn evaluate(
    setting: Setting,
    s: State,
    molecule: &Molecule,
    positions: &[f64],
    exclusions: &[u32],
    pairs: &mut [u32],
    references: &mut [f64],
    starts: &mut [u32],
    items: &mut [u32],
    forces: &mut [f64],
) -> Evaluated
    ensures says { EvaluateSays (job_on setting s molecule.now positions.now exclusions.now pairs.old references.old starts.old items.old forces.old) result pairs.new references.new starts.new items.new forces.new }
    ensures lists { EvaluateLists (job_on setting s molecule.now positions.now exclusions.now pairs.old references.old starts.old items.old forces.old) result pairs.new }
{
    let a = asked::asked(
        true, true, setting, s, molecule, positions, exclusions, pairs, references, starts, items,
        forces,
    );
    if let Err(why) = a {
        return refused(s, why);
    }
    kernel::settle(
        setting, s, molecule, positions, exclusions, pairs, references, starts, items, forces,
    )
}
