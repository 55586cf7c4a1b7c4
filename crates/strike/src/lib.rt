// Atoms struck from a running melt, and put into it (02, No. 11): positions, velocities, masses, charges and species close up together, with everything that
// names them. In place: what lies past the new counts stays as it came. specs/Calls.antt says what both calls answer and leave, specs/Theorems.antt what that
// means.
#![tactic(auto)]

use answer::Refusal;
use cell::Vec3;
use neighbor::State;

mod asked;
mod closing;

ghost use Rattle.std.specs.Prelude.{◌≡◌, length, set, ◌+◌, ◌*◌, ◌<◌, [], ◌∷◌};
ghost use Rattle.std.proofs.lemmas.List.Edits.{sets};
ghost use Rattle.strike.specs.Calls.{atoms, links, unlisted_of, StrikeSays, PutSays};
ghost use Rattle.strike.specs.Steps.{Numbered, Fitting};
ghost use Rattle.strike.specs.Left.{AtomsClosed, BondsClosed, AnglesClosed, LinksClosed};

// How many rows of each table are left; `lengths` and `ks` are the Rust's per_bond and per_bond_k.
#[repr(C)]
#[derive(Drop)]
pub struct Left {
    pub atoms: usize,
    pub bonds: usize,
    pub lengths: usize,
    pub ks: usize,
    pub angles: usize,
    pub per_angle: usize,
    pub exclusions: usize,
}

// Struck, or why not; the counts, zeros where refused; and the list's state, which comes back in every case.
#[derive(Drop)]
pub struct Struck {
    pub done: Result<(), Refusal>,
    pub left: Left,
    pub state: State,
}

// One atom with all its numbers.
#[repr(C)]
#[derive(Clone, Copy)]
pub struct NewAtom {
    pub position: Vec3,
    pub velocity: Vec3,
    pub mass: f64,
    pub charge: f64,
    pub species: u32,
}

// Put, or why not; how many atoms there are now; and the list's state, which comes back in every case.
#[derive(Drop)]
pub struct Entered {
    pub done: Result<(), Refusal>,
    pub count: u32,
    pub state: State,
}

// How many rows of a table of names, and of those beside it, are left.
#[derive(Drop)]
struct ThreeLeft {
    names: usize,
    first: usize,
    second: usize,
}

// A state without pairs and references, all else as it came.
fn unlisted(s: State) -> State
    ensures { result ≡ unlisted_of s }
{
    let mut t = s;
    t.pairs = 0;
    t.references = 0;
    t
}

// Room for the new numbers of the most atoms that there can be; in a function of its own, so that no proof writes out its numbers.
fn blank() -> [u32; 16384]
    ensures { length result ≡ 16384 }
{
    [0u32; 16384]
}

// The atoms' tables closed up; how many survive.
fn close_atoms(
    marks: &[u32],
    positions: &mut [f64],
    velocities: &mut [f64],
    masses: &mut [f64],
    charges: &mut [f64],
    species: &mut [u32],
) -> usize
    requires { Fitting marks.now (atoms positions.old velocities.old masses.old charges.old species.old) }
    ensures { AtomsClosed marks.now (atoms positions.old velocities.old masses.old charges.old species.old) result (atoms positions.new velocities.new masses.new charges.new species.new) }
{
    closing::close_atoms(positions, 3, marks);
    closing::close_atoms(velocities, 3, marks);
    closing::close_atoms(masses, 1, marks);
    closing::close_atoms(charges, 1, marks);
    closing::close_whole(species, marks)
}

// A table of names closed up, with the two tables of floats beside it, which go by the old names: `one` a row of the first, `two` of the second.
fn close_bonds(
    marks: &[u32],
    fresh: &[u32],
    bonds: &mut [u32],
    lengths: &mut [f64],
    ks: &mut [f64],
) -> ThreeLeft
    requires { Numbered marks.now fresh.now }
    ensures { BondsClosed marks.now bonds.old lengths.old ks.old result bonds.new lengths.new ks.new }
{
    let links = bonds.len() / 2;
    let m = lengths.len();
    let a = closing::close_beside(lengths, 1, m, bonds, 2, links, marks);
    let k = ks.len();
    let b = closing::close_beside(ks, 1, k, bonds, 2, links, marks);
    let c = closing::close_names(bonds, 2, links, marks, fresh);
    ThreeLeft {
        names: c,
        first: a,
        second: b,
    }
}

fn close_angles(
    marks: &[u32],
    fresh: &[u32],
    angles: &mut [u32],
    per_angle: &mut [f64],
) -> ThreeLeft
    requires { Numbered marks.now fresh.now }
    ensures { AnglesClosed marks.now angles.old per_angle.old result angles.new per_angle.new }
{
    let links = angles.len() / 3;
    let m = per_angle.len() / 2;
    let a = closing::close_beside(per_angle, 2, m, angles, 3, links, marks);
    let c = closing::close_names(angles, 3, links, marks, fresh);
    ThreeLeft {
        names: c,
        first: a,
        second: 0,
    }
}

// Everything that names an atom closed up; `n` atoms survive.
fn close_links(
    marks: &[u32],
    fresh: &[u32],
    n: usize,
    bonds: &mut [u32],
    lengths: &mut [f64],
    ks: &mut [f64],
    angles: &mut [u32],
    per_angle: &mut [f64],
    exclusions: &mut [u32],
) -> Left
    requires { Numbered marks.now fresh.now }
    ensures { LinksClosed marks.now n (links bonds.old lengths.old ks.old angles.old per_angle.old exclusions.old) result (links bonds.new lengths.new ks.new angles.new per_angle.new exclusions.new) }
{
    let b = close_bonds(marks, fresh, bonds, lengths, ks);
    let a = close_angles(marks, fresh, angles, per_angle);
    let m = exclusions.len() / 2;
    let x = closing::close_names(exclusions, 2, m, marks, fresh);
    Left {
        atoms: n,
        bonds: b.names,
        lengths: b.first,
        ks: b.second,
        angles: a.names,
        per_angle: a.first,
        exclusions: x,
    }
}

// Strike the atoms whose mark is 1, with every bond, angle and exclusion that names one; refusals 1, 2, 3, 4, 5, and nothing is moved then. An exclusion that
// names no atom goes, and so does a row past the last bond or angle.
pub fn strike(
    marks: &[u32],
    s: State,
    positions: &mut [f64],
    velocities: &mut [f64],
    masses: &mut [f64],
    charges: &mut [f64],
    species: &mut [u32],
    bonds: &mut [u32],
    lengths: &mut [f64],
    ks: &mut [f64],
    angles: &mut [u32],
    per_angle: &mut [f64],
    exclusions: &mut [u32],
) -> Struck
    ensures { StrikeSays marks.now s (atoms positions.old velocities.old masses.old charges.old species.old) (links bonds.old lengths.old ks.old angles.old per_angle.old exclusions.old) result (atoms positions.new velocities.new masses.new charges.new species.new) (links bonds.new lengths.new ks.new angles.new per_angle.new exclusions.new) }
{
    let a = asked::strike(
        marks, positions, velocities, masses, charges, species, bonds, lengths, ks, angles,
        per_angle, exclusions,
    );
    if let Err(why) = a {
        return Struck {
            done: Err(why),
            left: Left {
                atoms: 0,
                bonds: 0,
                lengths: 0,
                ks: 0,
                angles: 0,
                per_angle: 0,
                exclusions: 0,
            },
            state: s,
        };
    }
    let mut fresh = blank();
    closing::number(marks, &mut fresh);
    let n = close_atoms(marks, positions, velocities, masses, charges, species);
    let left = close_links(
        marks, &fresh, n, bonds, lengths, ks, angles, per_angle, exclusions,
    );
    Struck {
        done: Ok(()),
        left: left,
        state: unlisted(s),
    }
}

// ThreeLeft floats at row k.
fn lay(xs: &mut [f64], k: usize, v: Vec3)
    requires { 3 * k + 2 < length xs.old }
    ensures { xs.new ≡ sets xs.old (3 * k) (v.x ∷ v.y ∷ v.z ∷ []) }
{
    let at = 3 * k;
    xs[at] = v.x;
    xs[at + 1] = v.y;
    xs[at + 2] = v.z;
}

// One atom more after the first `count`, which are those that are there; refusals 1, 2, 3, and nothing is stored then.
pub fn put(
    count: u32,
    new: NewAtom,
    s: State,
    positions: &mut [f64],
    velocities: &mut [f64],
    masses: &mut [f64],
    charges: &mut [f64],
    species: &mut [u32],
) -> Entered
    ensures { PutSays count new s (atoms positions.old velocities.old masses.old charges.old species.old) result (atoms positions.new velocities.new masses.new charges.new species.new) }
{
    let a = asked::put(count, new, positions, velocities, masses, charges, species);
    if let Err(why) = a {
        return Entered {
            done: Err(why),
            count: count,
            state: s,
        };
    }
    let at = count as usize;
    let position = new.position;
    lay(positions, at, position);
    let velocity = new.velocity;
    lay(velocities, at, velocity);
    masses[at] = new.mass;
    charges[at] = new.charge;
    species[at] = new.species;
    Entered {
        done: Ok(()),
        count: count + 1,
        state: unlisted(s),
    }
}
