// The struct that an answer is handed over as.
#![tactic(auto, unfolding(crate::specs::Flat::flat_refusal, crate::specs::Flat::flat_done, crate::specs::Flat::flat_number, crate::specs::Flat::flat_yes_no, crate::specs::Flat::flat_whole, crate::specs::Flat::flat_vector, crate::specs::Flat::flat_lattice, crate::specs::Flat::flat_cell, crate::specs::Flat::flat_lattice_answer, crate::specs::Flat::with_boxes, crate::specs::Flat::flat_image, crate::specs::Flat::flat_rows, crate::specs::Flat::flat_inverse, crate::specs::Flat::flat_summed, crate::specs::Flat::flat_state, crate::specs::Flat::flat_state_answer, crate::specs::Flat::flat_updated, crate::specs::Flat::flat_built, crate::specs::Flat::flat_job, crate::specs::Flat::flat_sheet, crate::specs::Flat::flat_rule, crate::specs::Flat::flat_lj, crate::specs::Flat::flat_lj_answer, crate::specs::Flat::flat_bond_answer, crate::specs::Flat::flat_evaluated, crate::specs::Flat::flat_stepped))]

ghost use Rattle.std.specs.Prelude.{◌≡◌, MatchResult, Ok, pos};
ghost use Rattle.cell.specs.Vec.{zero_vec};
ghost use Rattle.field_structs.specs.Flat.{well_done, flat_refusal, flat_done, flat_number, flat_yes_no, flat_whole, flat_vector, flat_lattice, zero_lattice, flat_cell, flat_lattice_answer, image_with, with_boxes, flat_image, flat_rows, flat_inverse, flat_summed, flat_state, flat_state_answer, flat_updated, flat_built, flat_rule, flat_lj, flat_lj_answer, flat_bond_answer, flat_evaluated, flat_stepped, flat_job, flat_sheet};

use crate::{
    FlatBondAnswer, FlatBuilt, FlatCell, FlatDone, FlatEvaluated, FlatImage, FlatImageAnswer,
    FlatInverseAnswer, FlatJob, FlatLattice, FlatLatticeAnswer, FlatLj, FlatLjAnswer, FlatNumber,
    FlatRowsAnswer, FlatSheet, FlatState, FlatStateAnswer, FlatStepped, FlatSummed, FlatUpdated,
    FlatVector, FlatWhole, FlatYesNo,
};
use answer::Refusal;
use cell::{Image, Lattice, Rows, Triple, Uncounted, Vec3, matrices, vectors};
use evaluate::Evaluated;
use frame::Built;
use neighbor::{State, Updated};
use potentials::Bond;
use potentials_pair::{Lj, Mixing};
use sheet::Job;
use verlet_step::Stepped;
use virial::Sum;

// ---- refusals

impl From<Refusal> for FlatDone {
    ghost from_gives = { λ why r. r ≡ flat_refusal why };

    fn from(why: Refusal) -> FlatDone {
        FlatDone {
            number: why.number(),
            place: why.place(),
        }
    }
}

impl From<Result<(), Refusal>> for FlatDone {
    ghost from_gives = { λ a r. r ≡ flat_done a };

    fn from(a: Result<(), Refusal>) -> FlatDone {
        match a {
            Ok(()) => FlatDone::default(),
            Err(why) => why.into(),
        }
    }
}

// The two parts of an answer: what its `done` is, and its value, `zeros` where it is refused.
pub(crate) fn done_and_value<T, E: Into<FlatDone>, F: From<T> + Drop>(
    a: Result<T, E>,
    zeros: F,
) -> (FlatDone, F)
    ensures { MatchResult a (λ x. (result.0 ≡ well_done) × F.from_gives x result.1) (λ why. E.converts why result.0 × (result.1 ≡ zeros)) }
{
    match a {
        Ok(x) => (FlatDone::default(), x.into()),
        Err(why) => (why.into(), zeros),
    }
}

// ---- plain answers

impl From<Result<f64, Refusal>> for FlatNumber {
    ghost from_gives = { λ a r. r ≡ flat_number a };

    fn from(a: Result<f64, Refusal>) -> FlatNumber {
        let (done, value) = done_and_value(a, 0.0);
        FlatNumber { done, value }
    }
}

impl From<Result<bool, Refusal>> for FlatYesNo {
    ghost from_gives = { λ a r. r ≡ flat_yes_no a };

    fn from(a: Result<bool, Refusal>) -> FlatYesNo {
        let (done, value) = done_and_value(a, 0);
        FlatYesNo { done, value }
    }
}

impl From<Result<u64, Refusal>> for FlatWhole {
    ghost from_gives = { λ a r. r ≡ flat_whole a };

    fn from(a: Result<u64, Refusal>) -> FlatWhole {
        let (done, value) = done_and_value(a, 0);
        FlatWhole { done, value }
    }
}

// ---- cell

impl From<Result<Vec3, Refusal>> for FlatVector {
    ghost from_gives = { λ a r. r ≡ flat_vector a };

    fn from(a: Result<Vec3, Refusal>) -> FlatVector {
        let (done, value) = done_and_value(a, vectors::zero());
        FlatVector { done, value }
    }
}

impl From<Lattice> for FlatLattice {
    ghost from_gives = { λ l r. r ≡ flat_lattice l };

    fn from(l: Lattice) -> FlatLattice {
        FlatLattice {
            a: l.a,
            b: l.b,
            c: l.c,
            px: l.px.into(),
            py: l.py.into(),
            pz: l.pz.into(),
        }
    }
}

// Written out, as `Vec3` has no `Default`; so is that of `FlatImage`.
impl Default for FlatLattice {
    ghost is_default = { λ r. r ≡ zero_lattice };

    fn default() -> FlatLattice {
        FlatLattice {
            a: vectors::zero(),
            b: vectors::zero(),
            c: vectors::zero(),
            px: 0,
            py: 0,
            pz: 0,
        }
    }
}

impl From<Result<Lattice, Refusal>> for FlatLatticeAnswer {
    ghost from_gives = { λ a r. r ≡ flat_lattice_answer a };

    fn from(a: Result<Lattice, Refusal>) -> FlatLatticeAnswer {
        let (done, lattice) = done_and_value(a, FlatLattice::default());
        FlatLatticeAnswer { done, lattice }
    }
}

impl Default for FlatImage {
    ghost is_default = { λ r. r ≡ image_with zero_vec 0 (pos 0) (pos 0) (pos 0) };

    fn default() -> FlatImage {
        FlatImage {
            diff: vectors::zero(),
            kind: 0,
            x: 0,
            y: 0,
            z: 0,
        }
    }
}

impl From<Image> for FlatImage {
    ghost from_gives = { λ i r. r ≡ with_boxes i.diff i.counts };

    fn from(i: Image) -> FlatImage {
        let uncounted = FlatImage {
            diff: i.diff,
            ..FlatImage::default()
        };
        match i.counts {
            Ok(Triple { x, y, z }) => FlatImage {
                x,
                y,
                z,
                ..uncounted
            },
            Err(Uncounted::NoFit) => FlatImage {
                kind: 1,
                ..uncounted
            },
            Err(Uncounted::NoInverse) => FlatImage {
                kind: 2,
                ..uncounted
            },
        }
    }
}

impl From<Result<Image, Refusal>> for FlatImageAnswer {
    ghost from_gives = { λ a r. r ≡ flat_image a };

    fn from(a: Result<Image, Refusal>) -> FlatImageAnswer {
        let (done, image) = done_and_value(a, FlatImage::default());
        FlatImageAnswer { done, image }
    }
}

impl From<Result<Rows, Refusal>> for FlatRowsAnswer {
    ghost from_gives = { λ a r. r ≡ flat_rows a };

    fn from(a: Result<Rows, Refusal>) -> FlatRowsAnswer {
        let (done, rows) = done_and_value(a, matrices::zero_rows());
        FlatRowsAnswer { done, rows }
    }
}

impl From<Result<Option<Rows>, Refusal>> for FlatInverseAnswer {
    ghost from_gives = { λ a r. r ≡ flat_inverse a };

    fn from(a: Result<Option<Rows>, Refusal>) -> FlatInverseAnswer {
        let (done, inverse): (FlatDone, Option<Rows>) = done_and_value(a, None);
        FlatInverseAnswer {
            done,
            found: inverse.is_some().into(),
            rows: inverse.unwrap_or(matrices::zero_rows()),
        }
    }
}

// ---- virial

impl From<Result<Sum, Refusal>> for FlatSummed {
    ghost from_gives = { λ a r. r ≡ flat_summed a };

    fn from(a: Result<Sum, Refusal>) -> FlatSummed {
        let (done, sum) = done_and_value(a, virial::kernel::zero());
        FlatSummed { done, sum }
    }
}

// ---- the pair list

impl From<Option<Lattice>> for FlatCell {
    ghost from_gives = { λ cell r. r ≡ flat_cell cell };

    fn from(cell: Option<Lattice>) -> FlatCell {
        match cell {
            None => FlatCell::default(),
            Some(l) => FlatCell {
                present: 1,
                lattice: l.into(),
            },
        }
    }
}

impl From<State> for FlatState {
    ghost from_gives = { λ s r. r ≡ flat_state s };

    fn from(s: State) -> FlatState {
        FlatState {
            cutoff: s.cutoff,
            skin: s.skin,
            pairs: s.pairs,
            references: s.references,
            checks: s.checks,
            fallback: s.fallback.into(),
            builds: s.builds,
            built_in: s.built_in.into(),
        }
    }
}

impl From<Result<State, Refusal>> for FlatStateAnswer {
    ghost from_gives = { λ a r. r ≡ flat_state_answer a };

    fn from(a: Result<State, Refusal>) -> FlatStateAnswer {
        let (done, state) = done_and_value(a, FlatState::default());
        FlatStateAnswer { done, state }
    }
}

impl From<Updated> for FlatUpdated {
    ghost from_gives = { λ u r. r ≡ flat_updated u };

    fn from(u: Updated) -> FlatUpdated {
        FlatUpdated {
            done: u.done.into(),
            rebuilt: u.rebuilt.into(),
            state: u.state.into(),
        }
    }
}

// ---- the whole-number frame and the job sheet

impl From<Built> for FlatBuilt {
    ghost from_gives = { λ b r. r ≡ flat_built (Ok b) };

    fn from(b: Built) -> FlatBuilt {
        FlatBuilt {
            done: FlatDone::default(),
            pairs: b.pairs,
            checks: b.checks,
            fallback: b.fallback.into(),
        }
    }
}

impl From<Result<Built, Refusal>> for FlatBuilt {
    ghost from_gives = { λ a r. r ≡ flat_built a };

    fn from(a: Result<Built, Refusal>) -> FlatBuilt {
        let (done, built) = done_and_value(a, FlatBuilt::default());
        FlatBuilt { done, ..built }
    }
}

impl From<Job> for FlatJob {
    ghost from_gives = { λ j r. r ≡ flat_job j };

    fn from(j: Job) -> FlatJob {
        FlatJob {
            atoms: j.atoms,
            ex: j.ex,
            ey: j.ey,
            ez: j.ez,
            px: j.px.into(),
            py: j.py.into(),
            pz: j.pz.into(),
            radius: j.radius,
            count: j.count,
        }
    }
}

impl From<Result<Job, Refusal>> for FlatSheet {
    ghost from_gives = { λ a r. r ≡ flat_sheet a };

    fn from(a: Result<Job, Refusal>) -> FlatSheet {
        let (done, job) = done_and_value(a, FlatJob::default());
        FlatSheet { done, job }
    }
}

// ---- terms

// A function and no `From`, which needs a type of this crate on one side.
fn rule_number(rule: Mixing) -> u32
    ensures { result ≡ flat_rule rule }
{
    match rule {
        Mixing::HalfSum => 1,
        Mixing::Geometric => 2,
    }
}

impl From<Lj> for FlatLj {
    ghost from_gives = { λ lj r. r ≡ flat_lj lj };

    fn from(lj: Lj) -> FlatLj {
        FlatLj {
            epsilon: lj.epsilon,
            sigma: lj.sigma,
            cutoff: lj.cutoff,
            shift: lj.shift.into(),
            rule: rule_number(lj.rule),
        }
    }
}

impl From<Result<Lj, Refusal>> for FlatLjAnswer {
    ghost from_gives = { λ a r. r ≡ flat_lj_answer a };

    fn from(a: Result<Lj, Refusal>) -> FlatLjAnswer {
        let (done, lj) = done_and_value(a, FlatLj::default());
        FlatLjAnswer { done, lj }
    }
}

impl From<Result<Bond, Refusal>> for FlatBondAnswer {
    ghost from_gives = { λ a r. r ≡ flat_bond_answer a };

    fn from(a: Result<Bond, Refusal>) -> FlatBondAnswer {
        let (done, bond) = done_and_value(a, Bond { k: 0.0, r0: 0.0 });
        FlatBondAnswer { done, bond }
    }
}

impl From<Evaluated> for FlatEvaluated {
    ghost from_gives = { λ e r. r ≡ flat_evaluated e };

    fn from(e: Evaluated) -> FlatEvaluated {
        FlatEvaluated {
            done: e.done.into(),
            rebuilt: e.rebuilt.into(),
            state: e.state.into(),
            sum: e.sum,
        }
    }
}

impl From<Stepped> for FlatStepped {
    ghost from_gives = { λ a r. r ≡ flat_stepped a };

    fn from(a: Stepped) -> FlatStepped {
        FlatStepped {
            done: a.done.into(),
            stopped: a.stopped.into(),
            rebuilt: a.rebuilt.into(),
            state: a.state.into(),
            potential: a.potential,
        }
    }
}
