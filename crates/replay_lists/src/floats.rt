// The calls of `float`, 01 to 0b.
use replay_words::{Answer, Case, Word};

fn put_value<T: Word>(out: &mut Answer, value: T) {
    out.put_done();
    out.put(value);
}

// A call of one float.
pub(crate) fn one_case<T: Word, F: FnOnce(f64) -> T + Drop>(
    call: F,
    mut case: Case,
    out: &mut Answer,
) -> Option<()>
    requires { F.IsAlwaysCallable call }
{
    let x = case.take_float()?;
    case.end()?;
    put_value(out, call(x));
    Some(())
}

// A call of two.
pub(crate) fn two_case<F: FnOnce(f64, f64) -> f64 + Drop>(
    call: F,
    mut case: Case,
    out: &mut Answer,
) -> Option<()>
    requires { F.IsAlwaysCallable call }
{
    let x = case.take_float()?;
    let y = case.take_float()?;
    case.end()?;
    put_value(out, call(x, y));
    Some(())
}

pub(crate) fn clamp_case(mut case: Case, out: &mut Answer) -> Option<()> {
    let x = case.take_float()?;
    let lo = case.take_float()?;
    let hi = case.take_float()?;
    case.end()?;
    put_value(out, float::clamp(x, lo, hi));
    Some(())
}
