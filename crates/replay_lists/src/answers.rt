// The library's records told as words.
ghost use Rattle.std.specs.Prelude.{ℕ, ◌≡◌, List, [], ◌∷◌, ◌++◌, length};
ghost use Rattle.replay_words.specs.Told.{told, float_words};
ghost use Rattle.replay_lists.specs.Told.{sum_words, summed_words, lattice_words, cell_words, state_words};

use answer::Refusal;
use cell::{Lattice, Rows, Vec3};
use neighbor::State;
use replay_words::Answer;
use virial::Sum;

pub fn put_vec3(out: &mut Answer, v: Vec3)
    ensures { out.new ≡ told out.old (float_words (v.x ∷ v.y ∷ v.z ∷ [])) }
{
    out.put_all(&[v.x, v.y, v.z]);
}

#[tactic(auto, using(replay_words::proofs::Words::told_told))]
pub fn put_rows(out: &mut Answer, rows: Rows)
    ensures { out.new ≡ told out.old (float_words rows.x ++ float_words rows.y ++ float_words rows.z) }
{
    out.put_all(&rows.x);
    out.put_all(&rows.y);
    out.put_all(&rows.z);
}

pub fn put_lattice(out: &mut Answer, l: Lattice)
    ensures { out.new ≡ told out.old (lattice_words l) }
{
    out.put_all(&[
        l.a.x, l.a.y, l.a.z, l.b.x, l.b.y, l.b.z, l.c.x, l.c.y, l.c.z,
    ]);
    out.put_all(&[l.px, l.py, l.pz]);
}

pub fn put_sum(out: &mut Answer, s: Sum)
    ensures { out.new ≡ told out.old (sum_words s) }
{
    out.put_all(&[
        s.energy, s.xx, s.xy, s.xz, s.yx, s.yy, s.yz, s.zx, s.zy, s.zz,
    ]);
}

#[tactic(auto, using(replay_words::proofs::Words::told_told))]
pub fn put_state(out: &mut Answer, s: State)
    ensures { out.new ≡ told out.old (state_words s) }
{
    out.put_all(&[s.cutoff, s.skin]);
    out.put_all(&[s.pairs, s.references, s.checks]);
    out.put(s.fallback);
    out.put(s.builds);
}

fn put_cell(out: &mut Answer, cell: Option<Lattice>)
    ensures { out.new ≡ told out.old (cell_words cell) }
{
    match cell {
        None => out.put(false),
        Some(l) => {
            out.put(true);
            put_lattice(out, l);
        }
    }
}

// The same, with the remembered cell at its end where it stands in the line.
#[tactic(auto, using(replay_words::proofs::Words::told_told))]
pub fn put_state_and(cell: bool, out: &mut Answer, s: State)
    ensures { (ws : List ℕ) × (out.new ≡ told out.old ws) }
{
    put_state(out, s);
    if cell {
        put_cell(out, s.built_in);
    }
}

fn put_summed(out: &mut Answer, answer: Result<Sum, Refusal>)
    ensures { out.new ≡ told out.old (summed_words answer) }
{
    match answer {
        Ok(sum) => {
            out.put_done();
            put_sum(out, sum);
        }
        Err(why) => out.put_refusal(why),
    }
}

// A sum or the refusal, then the forces, whatever became of them.
pub fn put_summed_forces(out: &mut Answer, answer: Result<Sum, Refusal>, forces: &[f64])
    ensures { out.new ≡ told out.old (summed_words answer ++ length forces.now ∷ float_words forces.now) }
{
    put_summed(out, answer);
    out.put_table(forces);
}
