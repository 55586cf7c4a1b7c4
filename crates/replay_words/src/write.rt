// Words into a line of text. Each call writes from a place on, and answers the place after; what finds no room is not written.
ghost use Rattle.std.specs.Prelude.{◌≤◌, length};

fn put_byte(out: &mut [u8], at: usize, b: u8) -> usize
    ensures { result ≤ length out.new }
{
    hexadecimal::put_byte(out, at, b);
    if at < out.len() {
        return at + 1;
    }
    out.len()
}

// One blank and 16 digits.
fn put_text(out: &mut [u8], at: usize, w: u64) -> usize
    ensures { result ≤ length out.new }
{
    if out.len() < 17 {
        return out.len();
    }
    if out.len() - 17 < at {
        return out.len();
    }
    hexadecimal::put_byte(out, at, 32);
    hexadecimal::put8(out, at + 1, w / 4294967296);
    hexadecimal::put8(out, at + 9, w % 4294967296);
    at + 17
}

fn put_call(out: &mut [u8], at: usize, call: u64) -> usize
    ensures { result ≤ length out.new }
{
    if out.len() < 2 {
        return out.len();
    }
    if out.len() - 2 < at {
        return out.len();
    }
    hexadecimal::put2(out, at, call);
    at + 2
}

// A whole line: the call's two digits, the words, a newline.
pub fn print(out: &mut [u8], at: usize, call: u64, words: &[u64]) -> usize
    ensures { result ≤ length out.new }
{
    let mut next = put_call(out, at, call);
    for word in words {
        next = put_text(out, next, *word);
    }
    put_byte(out, next, 10)
}

// The line of what is no case.
pub fn print_no_case(out: &mut [u8], at: usize) -> usize
    ensures { result ≤ length out.new }
{
    let next = put_call(out, at, 255);
    put_byte(out, next, 10)
}
