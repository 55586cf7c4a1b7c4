// A line's words on standard output, a blank after each. (No contract speaks of what is written: the programs' output is compared.)
// run_limits and run_melts have these few functions each: a public one, for both, would have nothing to ensure.

// The number of standard output.
const STDOUT: i32 = 1;

use answer::Refusal;
use virial::Sum;

pub(crate) fn put(n: u64) {
    io::print_decimal(STDOUT, n);
    io::write_all(STDOUT, b" ");
}

pub(crate) fn put_flag(b: bool) {
    put(u64::from(b));
}

// A float's bits, 16 hexadecimal digits.
pub(crate) fn put_float(x: f64) {
    io::print_hex(STDOUT, float::to_bits(x), 16);
    io::write_all(STDOUT, b" ");
}

// The bits of a sum: its energy and the virial's nine.
pub(crate) fn put_sum(s: Sum) {
    for x in [
        s.energy, s.xx, s.xy, s.xz, s.yx, s.yy, s.yz, s.zx, s.zy, s.zz,
    ] {
        put_float(x);
    }
}

// Refusal and place, 0 0 where answered.
pub(crate) fn put_done(done: Result<(), Refusal>) {
    match done {
        Ok(()) => {
            put(0);
            put(0);
        }
        Err(why) => {
            put(why.number());
            put(why.place());
        }
    }
}

// The last word of a line.
pub(crate) fn end(n: u64) {
    io::print_decimal(STDOUT, n);
    io::write_all(STDOUT, b"\n");
}
