// A line's words on standard output, a blank after each. (No contract speaks of what is written: the program's output is compared.)
// run_limits and run_melts have these few functions each: a public one, for both, would have nothing to ensure.

// The number of standard output.
const STDOUT: i32 = 1;

use answer::Refusal;

pub(crate) fn put(n: u64) {
    io::print_decimal(STDOUT, n);
    io::write_all(STDOUT, b" ");
}

pub(crate) fn put_flag(b: bool) {
    put(u64::from(b));
}

// Refusal and place, 0 0 where answered. The value comes back where there is one.
pub(crate) fn put_head<T>(answer: Result<T, Refusal>) -> Option<T> {
    match answer {
        Ok(value) => {
            put(0);
            put(0);
            Some(value)
        }
        Err(why) => {
            put(why.number());
            put(why.place());
            None
        }
    }
}

// The last word of a line.
pub(crate) fn end(n: u64) {
    io::print_decimal(STDOUT, n);
    io::write_all(STDOUT, b"\n");
}

pub(crate) fn end_line() {
    io::write_all(STDOUT, b"\n");
}
