// The calls on a whole melt, whose words have one form: `evaluate`, 55, and 57 with a mask; `verlet_step`, 63 and its finish 64, and 67, 68 with a mask;
// `fire`, 69, with a mask.
ghost use Rattle.replay_melts.specs.Came.{ComesOf};

use crate::masks::Parts;
use crate::{masks, records};
use evaluate::{Evaluated, Molecule, Setting};
use fire::{FireOptions, Fired};
use neighbor::State;
use potentials::BondRows;
use potentials_angle::AngleRows;
use potentials_pair::SpeciesTables;
use replay_lists::answers;
use replay_words::{Answer, Case, Tables};
use verlet::Thermostat;
use verlet_step::{Pace, Stepped};

#[derive(Clone, Copy)]
pub(crate) enum Kind {
    Evaluate,
    Step,
    Finish,
    Settle,
}

// What is done, and what it alone is given: it stands before the settings.
#[derive(Clone, Copy)]
pub enum Work {
    Evaluate,
    Step(Pace),
    Finish(Pace),
    Settle(FireOptions),
}

// The time of a step, and 0, or 1, the target and tau.
fn take_pace(case: &mut Case) -> Option<Pace> {
    let dt = case.take_float()?;
    if !case.take_bool()? {
        return Some(Pace {
            dt,
            thermostat: None,
        });
    }
    let target_k = case.take_float()?;
    let tau_fs = case.take_float()?;
    Some(Pace {
        dt,
        thermostat: Some(Thermostat { target_k, tau_fs }),
    })
}

fn take_options(case: &mut Case) -> Option<FireOptions> {
    let max_iters = case.take_u32()?;
    let force_tol = case.take_float()?;
    let dt = case.take_float()?;
    let dt_max = case.take_float()?;
    Some(FireOptions {
        max_iters,
        force_tol,
        dt,
        dt_max,
    })
}

fn take_work(kind: Kind, case: &mut Case) -> Option<Work> {
    match kind {
        Kind::Evaluate => Some(Work::Evaluate),
        Kind::Step => Some(Work::Step(take_pace(case)?)),
        Kind::Finish => Some(Work::Finish(take_pace(case)?)),
        Kind::Settle => Some(Work::Settle(take_options(case)?)),
    }
}

// The tables of the terms.
fn take_terms(parts: Parts, case: &mut Case, tables: &mut Tables) -> Option<()> {
    masks::take_u32s_if(parts.own, case, &mut tables.own_ids)?;
    masks::take_floats_if(parts.own, case, &mut tables.own_params)?;
    case.take_u32s(&mut tables.ids)?;
    case.take_floats(&mut tables.params)?;
    case.take_u32s(&mut tables.species)?;
    case.take_floats(&mut tables.charges)?;
    case.take_u32s(&mut tables.bonds)?;
    case.take_floats(&mut tables.lengths)?;
    case.take_floats(&mut tables.ks)?;
    masks::take_u32s_if(parts.angles, case, &mut tables.angles)?;
    masks::take_floats_if(parts.angles, case, &mut tables.per_angle)
}

// All that is only read. An evaluation reads neither the potential nor masses.
#[derive(Clone, Copy)]
pub struct Given<'a> {
    pub work: Work,
    pub setting: Setting,
    pub state: State,
    pub potential: f64,
    pub molecule: Molecule<'a>,
    pub masses: &'a [f64],
    pub exclusions: &'a [u32],
}

fn put_evaluated(out: &mut Answer, cell: bool, r: Evaluated) {
    out.put_head(r.done);
    out.put(r.rebuilt);
    answers::put_state_and(cell, out, r.state);
    if r.done.is_ok() {
        answers::put_sum(out, r.sum);
    }
}

fn put_stepped(out: &mut Answer, cell: bool, r: Stepped) {
    out.put_head(r.done);
    out.put_all(&[r.stopped, r.rebuilt]);
    answers::put_state_and(cell, out, r.state);
    out.put(r.potential);
}

fn put_settled(out: &mut Answer, cell: bool, r: Fired) {
    out.put_head(r.done);
    out.put(r.iteration);
    out.put_all(&[r.stopped, r.converged]);
    out.put_all(&[r.energy, r.max_force]);
    answers::put_state_and(cell, out, r.state);
}

// What came of it.
#[derive(Drop)]
pub enum Came {
    Evaluated(Evaluated),
    Stepped(Stepped),
    Settled(Fired),
}

// One function for all four, whose rooms are the same.
pub fn worked(
    g: Given,
    positions: &mut [f64],
    velocities: &mut [f64],
    pairs: &mut [u32],
    references: &mut [f64],
    starts: &mut [u32],
    items: &mut [u32],
    forces: &mut [f64],
) -> Came
    ensures { ComesOf g.entry.work result }
{
    match g.work {
        Work::Evaluate => Came::Evaluated(evaluate::evaluate(
            g.setting,
            g.state,
            &g.molecule,
            positions,
            g.exclusions,
            pairs,
            references,
            starts,
            items,
            forces,
        )),
        Work::Step(pace) => Came::Stepped(verlet_step::step(
            g.setting,
            pace,
            g.state,
            g.potential,
            &g.molecule,
            g.masses,
            g.exclusions,
            positions,
            velocities,
            pairs,
            references,
            starts,
            items,
            forces,
        )),
        Work::Finish(pace) => Came::Stepped(verlet_step::finish(
            g.setting,
            pace,
            g.state,
            g.potential,
            &g.molecule,
            g.masses,
            g.exclusions,
            positions,
            velocities,
            pairs,
            references,
            starts,
            items,
            forces,
        )),
        Work::Settle(options) => Came::Settled(fire::fire(
            options,
            g.setting,
            g.state,
            &g.molecule,
            g.masses,
            g.exclusions,
            positions,
            velocities,
            pairs,
            references,
            starts,
            items,
            forces,
        )),
    }
}

// `cell` says whether the state is told with its remembered cell.
fn put_came(out: &mut Answer, cell: bool, came: Came) {
    match came {
        Came::Evaluated(r) => put_evaluated(out, cell, r),
        Came::Stepped(r) => put_stepped(out, cell, r),
        Came::Settled(r) => put_settled(out, cell, r),
    }
}

// The masses, the exclusions, the potential, the positions and the velocities. An evaluation has its positions where the others have their masses, and of the
// rest the exclusions alone; the potential is a step's.
fn take_atoms(kind: Kind, case: &mut Case, tables: &mut Tables) -> Option<f64> {
    match kind {
        Kind::Evaluate => {
            case.take_floats(&mut tables.positions)?;
            case.take_u32s(&mut tables.exclusions)?;
            Some(0.0)
        }
        Kind::Step | Kind::Finish => {
            case.take_floats(&mut tables.masses)?;
            case.take_u32s(&mut tables.exclusions)?;
            let potential = case.take_float()?;
            case.take_floats(&mut tables.positions)?;
            case.take_floats(&mut tables.velocities)?;
            Some(potential)
        }
        Kind::Settle => {
            case.take_floats(&mut tables.masses)?;
            case.take_u32s(&mut tables.exclusions)?;
            case.take_floats(&mut tables.positions)?;
            case.take_floats(&mut tables.velocities)?;
            Some(0.0)
        }
    }
}

// The words after a mask, or of a command without one.
fn told(
    kind: Kind,
    parts: Parts,
    mut case: Case,
    tables: &mut Tables,
    out: &mut Answer,
) -> Option<()> {
    let work = take_work(kind, &mut case)?;
    let (setting, state) = records::take_settings(parts, &mut case)?;
    take_terms(parts, &mut case, tables)?;
    let potential = take_atoms(kind, &mut case, tables)?;
    case.take_u32s(&mut tables.pairs)?;
    case.take_floats(&mut tables.references)?;
    case.take_u32s(&mut tables.starts)?;
    case.take_u32s(&mut tables.items)?;
    case.take_floats(&mut tables.forces)?;
    case.end()?;
    let given = Given {
        work,
        setting,
        state,
        potential,
        molecule: Molecule {
            tables: SpeciesTables {
                own_ids: tables.own_ids.items(),
                own_params: tables.own_params.items(),
                ids: tables.ids.items(),
                params: tables.params.items(),
            },
            species: tables.species.items(),
            charges: tables.charges.items(),
            bonds: BondRows {
                ends: tables.bonds.items(),
                lengths: tables.lengths.items(),
                ks: tables.ks.items(),
            },
            angles: AngleRows {
                corners: tables.angles.items(),
                per_angle: tables.per_angle.items(),
            },
        },
        masses: tables.masses.items(),
        exclusions: tables.exclusions.items(),
    };
    let came = worked(
        given,
        tables.positions.room(),
        tables.velocities.room(),
        tables.pairs.room(),
        tables.references.room(),
        tables.starts.room(),
        tables.items.room(),
        tables.forces.room(),
    );
    put_came(out, parts.cell, came);
    if !matches!(kind, Kind::Evaluate) {
        out.put_table(tables.positions.items());
        out.put_table(tables.velocities.items());
    }
    out.put_table(tables.pairs.items());
    out.put_table(tables.references.items());
    out.put_table(tables.starts.items());
    out.put_table(tables.items.items());
    out.put_table(tables.forces.items());
    Some(())
}

pub(crate) fn plain_case(
    kind: Kind,
    case: Case,
    tables: &mut Tables,
    out: &mut Answer,
) -> Option<()> {
    told(kind, Parts::default(), case, tables, out)
}

pub(crate) fn masked_case(
    kind: Kind,
    mut case: Case,
    tables: &mut Tables,
    out: &mut Answer,
) -> Option<()> {
    let parts = masks::take_mask(&mut case)?;
    told(kind, parts, case, tables, out)
}
