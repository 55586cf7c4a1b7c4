// The records of terms and evaluations taken out of a case's words.
ghost use Rattle.std.specs.Prelude.{◌≡◌, ◌+◌, ◌≤◌, IfSome, cond, length};
ghost use Rattle.cell.specs.Ranged.{cell_in_range};
ghost use Rattle.replay_words.specs.Told.{bit};

use crate::masks::Parts;
use cell::Lattice;
use evaluate::Setting;
use neighbor::State;
use potentials::Bond;
use potentials::coulomb::Coulomb;
use potentials_angle::Angle;
use potentials_pair::{Lj, Mixing};
use replay_lists::records::{remembering, take_cell, take_state_and, take_units};
use replay_words::Case;

// The rule where it stands in the line, 1 or 2: another word is no case. Rule 1 where it doesn't.
fn take_rule(there: bool, case: &mut Case) -> Option<Mixing>
    ensures { IfSome result (λ _. length case.old ≡ bit there + length case.new) }
{
    if !there {
        return Some(Mixing::HalfSum);
    }
    match case.take_u32()? {
        1 => Some(Mixing::HalfSum),
        2 => Some(Mixing::Geometric),
        _ => None,
    }
}

// Epsilon, sigma, cutoff, shift, and the rule where it stands in the line.
pub fn take_lj(ruled: bool, case: &mut Case) -> Option<Lj>
    ensures { IfSome result (λ _. length case.old ≡ 4 + bit ruled + length case.new) }
{
    let epsilon = case.take_float()?;
    let sigma = case.take_float()?;
    let cutoff = case.take_float()?;
    let shift = case.take_bool()?;
    let rule = take_rule(ruled, case)?;
    Some(Lj {
        epsilon,
        sigma,
        cutoff,
        shift,
        rule,
    })
}

// ---- each term is 0, or 1 and its numbers; no word is given back

fn take_lj_term(ruled: bool, case: &mut Case) -> Option<Option<Lj>>
    ensures { IfSome result (λ _. length case.new ≤ length case.old) }
{
    if !case.take_bool()? {
        return Some(None);
    }
    Some(Some(take_lj(ruled, case)?))
}

fn take_coulomb_term(case: &mut Case) -> Option<Option<Coulomb>>
    ensures { IfSome result (λ _. length case.new ≤ length case.old) }
{
    if !case.take_bool()? {
        return Some(None);
    }
    let cutoff = case.take_float()?;
    Some(Some(Coulomb { cutoff }))
}

fn take_bond_term(case: &mut Case) -> Option<Option<Bond>>
    ensures { IfSome result (λ _. length case.new ≤ length case.old) }
{
    if !case.take_bool()? {
        return Some(None);
    }
    let k = case.take_float()?;
    let r0 = case.take_float()?;
    Some(Some(Bond { k, r0 }))
}

// Absent too where the line has none.
fn take_angle_term(there: bool, case: &mut Case) -> Option<Option<Angle>>
    ensures { IfSome result (λ _. length case.new ≤ length case.old) }
{
    if !there || !case.take_bool()? {
        return Some(None);
    }
    let k = case.take_float()?;
    let rest = case.take_float()?;
    Some(Some(Angle { k, rest }))
}

// What a State without its cell stands for: built in the case's own cell, where that is in range.
fn in_own(s: State, cell: Option<Lattice>) -> State
    ensures { result ≡ cond (cell_in_range cell) (record { cutoff = s.cutoff; skin = s.skin; pairs = s.pairs; references = s.references; checks = s.checks; fallback = s.fallback; builds = s.builds; built_in = cell }) s }
{
    if cell::ranged::cell_in_range(cell) {
        remembering(s, cell)
    } else {
        s
    }
}

// All that an evaluation is given but its tables.
pub fn take_settings(parts: Parts, case: &mut Case) -> Option<(Setting, State)>
    ensures { IfSome result (λ _. length case.new ≤ length case.old) }
{
    let lj = take_lj_term(parts.rule, case)?;
    let coulomb = take_coulomb_term(case)?;
    let bond = take_bond_term(case)?;
    let angle = take_angle_term(parts.angles, case)?;
    let units = take_units(case)?;
    let s = take_state_and(parts.cell, case)?;
    let cell = take_cell(case)?;
    let setting = Setting {
        lj,
        coulomb,
        bond,
        angle,
        units,
        cell,
    };
    let state = if parts.cell { s } else { in_own(s, cell) };
    Some((setting, state))
}
