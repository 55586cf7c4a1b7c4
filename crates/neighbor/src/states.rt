// States: of a new list, after an answered build, and after pairs that do not fit. They are made here and nowhere else.
ghost use Rattle.std.specs.Prelude.{◌≡◌, false, Err};
ghost use Rattle.answer.specs.declared.Refusal.TheVariants.{Room};
ghost use Rattle.neighbor.specs.State.{fresh_of, skin_of, radius_of, kept_of, built_of, emptied_of};

use crate::{State, Updated};
use answer::Refusal;
use cell::Lattice;

pub(crate) fn fresh(cutoff: f64, skin: f64) -> State
    ensures { result ≡ fresh_of cutoff skin }
{
    State {
        cutoff,
        skin: float::max(skin, 0.0),
        pairs: 0,
        references: 0,
        checks: 0,
        fallback: false,
        builds: 0,
        built_in: None,
    }
}

// The skin as every call reads it.
pub(crate) fn skin(s: State) -> f64
    ensures { result ≡ skin_of s }
{
    float::max(s.skin, 0.0)
}

pub(crate) fn radius(s: State) -> f64
    ensures { result ≡ radius_of s }
{
    s.cutoff + skin(s)
}

pub(crate) fn kept(s: State) -> State
    ensures { result ≡ kept_of s }
{
    let mut t = s;
    t.skin = skin(s);
    t
}

pub(crate) fn built(
    s: State,
    cell: Option<Lattice>,
    atoms: u32,
    pairs: u32,
    checks: u32,
    fallback: bool,
) -> State
    ensures { result ≡ built_of s cell atoms pairs checks fallback }
{
    State {
        cutoff: s.cutoff,
        skin: skin(s),
        pairs,
        references: atoms,
        checks,
        fallback,
        builds: std::num::wrapping_add_u32(s.builds, 1),
        built_in: cell,
    }
}

pub(crate) fn emptied(s: State) -> State
    ensures { result ≡ emptied_of s }
{
    State {
        cutoff: s.cutoff,
        skin: skin(s),
        pairs: 0,
        references: 0,
        checks: 0,
        fallback: false,
        builds: s.builds,
        built_in: None,
    }
}

// A refusal that leaves the state as it came.
pub(crate) fn refused(s: State, why: Refusal) -> Updated
    ensures { result ≡ record { done = Err why; rebuilt = false; state = s } }
{
    Updated {
        done: Err(why),
        rebuilt: false,
        state: s,
    }
}

// Pairs that do not fit.
pub(crate) fn full(s: State, count: usize) -> Updated
    ensures { result ≡ record { done = Err (Room count); rebuilt = false; state = emptied_of s } }
{
    Updated {
        done: Err(Refusal::Room { count: count }),
        rebuilt: false,
        state: emptied(s),
    }
}
