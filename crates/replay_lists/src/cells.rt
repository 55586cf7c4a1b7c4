// The calls of `cell`, 10 to 1b.
use crate::{answers, records};
use answer::Refusal;
use cell::{Lattice, Rows, Triple, Uncounted, Vec3};
use replay_words::{Answer, Case};

// ---- answers as words

pub(crate) fn put_flag(out: &mut Answer, flag: bool) {
    out.put(flag);
}

pub(crate) fn put_float(out: &mut Answer, x: f64) {
    out.put(x);
}

fn put_lattice(out: &mut Answer, answer: Result<Lattice, Refusal>) {
    if let Some(l) = out.put_head(answer) {
        answers::put_lattice(out, l);
    }
}

// 0 where there is no inverse, or 1 and its rows.
pub(crate) fn put_inverse(out: &mut Answer, inverse: Option<Rows>) {
    out.put(inverse.is_some());
    if let Some(rows) = inverse {
        answers::put_rows(out, rows);
    }
}

// What kind of counts there are, and the counts, zeros where there are none.
fn put_counts(out: &mut Answer, counts: Result<Triple, Uncounted>) {
    let (kind, x, y, z) = match counts {
        Ok(n) => (0u64, n.x, n.y, n.z),
        Err(Uncounted::NoFit) => (1, 0, 0, 0),
        Err(Uncounted::NoInverse) => (2, 0, 0, 0),
    };
    out.put(kind);
    out.put_all(&[i64::from(x), i64::from(y), i64::from(z)]);
}

// ---- the calls

pub(crate) fn orthorhombic_case(mut case: Case, out: &mut Answer) -> Option<()> {
    let lx = case.take_float()?;
    let ly = case.take_float()?;
    let lz = case.take_float()?;
    case.end()?;
    put_lattice(out, cell::orthorhombic(lx, ly, lz));
    Some(())
}

pub(crate) fn cubic_case(mut case: Case, out: &mut Answer) -> Option<()> {
    let l = case.take_float()?;
    case.end()?;
    put_lattice(out, cell::cubic(l));
    Some(())
}

// A call of a lattice, and how its value is told.
pub(crate) fn lattice_case<
    T,
    F: FnOnce(Lattice) -> Result<T, Refusal> + Drop,
    P: FnOnce(&mut Answer, T) + Drop,
>(call: F, put: P, mut case: Case, out: &mut Answer) -> Option<()>
    requires call { F.IsAlwaysCallable call }
    requires put { P.IsAlwaysCallable put }
{
    let l = records::take_lattice(&mut case)?;
    case.end()?;
    if let Some(value) = out.put_head(call(l)) {
        put(out, value);
    }
    Some(())
}

// A call of a lattice and a vector that answers a vector.
pub(crate) fn vector_case<F: FnOnce(Lattice, Vec3) -> Result<Vec3, Refusal> + Drop>(
    call: F,
    mut case: Case,
    out: &mut Answer,
) -> Option<()>
    requires { F.IsAlwaysCallable call }
{
    let l = records::take_lattice(&mut case)?;
    let v = records::take_vec3(&mut case)?;
    case.end()?;
    if let Some(value) = out.put_head(call(l, v)) {
        answers::put_vec3(out, value);
    }
    Some(())
}

pub(crate) fn min_image_case(mut case: Case, out: &mut Answer) -> Option<()> {
    let d = records::take_vec3(&mut case)?;
    let around = records::take_cell(&mut case)?;
    case.end()?;
    if let Some(image) = out.put_head(cell::min_image(d, around)) {
        answers::put_vec3(out, image.diff);
    }
    Some(())
}

// The same with the boxes that were taken off.
pub(crate) fn counted_image_case(mut case: Case, out: &mut Answer) -> Option<()> {
    let d = records::take_vec3(&mut case)?;
    let around = records::take_cell(&mut case)?;
    case.end()?;
    if let Some(image) = out.put_head(cell::min_image(d, around)) {
        answers::put_vec3(out, image.diff);
        put_counts(out, image.counts);
    }
    Some(())
}
