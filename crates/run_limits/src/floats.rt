// Lists of floats: whole places, and digests of their bits.
use crate::frames;

// Cells eight wide.
fn spot(k: usize) -> f64 {
    f64::from((frames::cell_of(k) % 32 * 8 + frames::offset_of(k) % 8) as u32)
}

pub(crate) fn spread(xs: &mut [f64]) {
    for (k, x) in xs.iter_mut().enumerate() {
        *x = spot(k);
    }
}

// A float's bits, the high half and then the low.
fn step(h: u64, x: f64) -> u64 {
    let b = float::to_bits(x);
    frames::step(
        frames::step(h, (b / 4294967296) as u32),
        (b % 4294967296) as u32,
    )
}

pub(crate) fn digest(xs: &[f64]) -> u64 {
    xs.iter().fold(7, |h, x| step(h, *x))
}
