// The library's records taken out of a case's words.
ghost use Rattle.std.specs.Prelude.{◌≡◌, ◌+◌, IfSome, MatchOption, length, None};
ghost use Rattle.replay_words.specs.Told.{bit};

use cell::{Lattice, Vec3};
use neighbor::State;
use replay_words::Case;
use virial::{Sum, Units};

pub fn take_vec3(case: &mut Case) -> Option<Vec3>
    ensures { IfSome result (λ _. length case.old ≡ 3 + length case.new) }
{
    let x = case.take_float()?;
    let y = case.take_float()?;
    let z = case.take_float()?;
    Some(Vec3 { x, y, z })
}

pub fn take_lattice(case: &mut Case) -> Option<Lattice>
    ensures { IfSome result (λ _. length case.old ≡ 12 + length case.new) }
{
    let a = take_vec3(case)?;
    let b = take_vec3(case)?;
    let c = take_vec3(case)?;
    let px = case.take_bool()?;
    let py = case.take_bool()?;
    let pz = case.take_bool()?;
    Some(Lattice {
        a,
        b,
        c,
        px,
        py,
        pz,
    })
}

// 0, or 1 and a lattice.
pub fn take_cell(case: &mut Case) -> Option<Option<Lattice>>
    ensures { IfSome result (λ cell. MatchOption cell (length case.old ≡ 1 + length case.new) (λ _. length case.old ≡ 13 + length case.new)) }
{
    if case.take_bool()? {
        Some(Some(take_lattice(case)?))
    } else {
        Some(None)
    }
}

pub fn take_sum(case: &mut Case) -> Option<Sum>
    ensures { IfSome result (λ _. length case.old ≡ 10 + length case.new) }
{
    let energy = case.take_float()?;
    let x = take_vec3(case)?;
    let y = take_vec3(case)?;
    let z = take_vec3(case)?;
    Some(Sum {
        energy,
        xx: x.x,
        xy: x.y,
        xz: x.z,
        yx: y.x,
        yy: y.y,
        yz: y.z,
        zx: z.x,
        zy: z.y,
        zz: z.z,
    })
}

pub fn take_units(case: &mut Case) -> Option<Units>
    ensures { IfSome result (λ _. length case.old ≡ 4 + length case.new) }
{
    let force_to_accel = case.take_float()?;
    let kb_ev_per_k = case.take_float()?;
    let ke_coulomb = case.take_float()?;
    let ev_per_a3_to_gpa = case.take_float()?;
    Some(Units {
        force_to_accel,
        kb_ev_per_k,
        ke_coulomb,
        ev_per_a3_to_gpa,
    })
}

// The settings of a list and what it claims.
pub fn take_state(case: &mut Case) -> Option<State>
    ensures { IfSome result (λ s. (length case.old ≡ 7 + length case.new) × (s.built_in ≡ None)) }
{
    let cutoff = case.take_float()?;
    let skin = case.take_float()?;
    let pairs = case.take_u32()?;
    let references = case.take_u32()?;
    let checks = case.take_u32()?;
    let fallback = case.take_bool()?;
    let builds = case.take_u32()?;
    Some(State {
        cutoff,
        skin,
        pairs,
        references,
        checks,
        fallback,
        builds,
        built_in: None,
    })
}

// The same, with the remembered cell at its end where it stands in the line.
pub fn take_state_and(cell: bool, case: &mut Case) -> Option<State>
    ensures { IfSome result (λ s. MatchOption s.built_in (length case.old ≡ 7 + bit cell + length case.new) (λ _. length case.old ≡ 20 + length case.new)) }
{
    let s = take_state(case)?;
    if !cell {
        return Some(s);
    }
    let built_in = take_cell(case)?;
    Some(remembering(s, built_in))
}

// The state with another remembered cell, and all else as it was.
pub fn remembering(s: State, cell: Option<Lattice>) -> State
    ensures { result ≡ record { cutoff = s.cutoff; skin = s.skin; pairs = s.pairs; references = s.references; checks = s.checks; fallback = s.fallback; builds = s.builds; built_in = cell } }
{
    State {
        built_in: cell,
        ..s
    }
}
