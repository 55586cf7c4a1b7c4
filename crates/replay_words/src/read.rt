// A line of text into a call and its words.
ghost use Rattle.std.specs.Prelude.{◌≤◌, IfSome, length};

// A line's call, below 256, and how many words it has.
#[derive(Clone, Copy)]
pub struct Line {
    pub call: u64,
    pub count: usize,
}

// The number of 16 digits after a blank.
fn word(text: &[u8]) -> Option<u64> {
    if hexadecimal::byte_at(text, 0) != 32 {
        return None;
    }
    let hi = hexadecimal::hex8(text, 1)?;
    let lo = hexadecimal::hex8(text, 9)?;
    Some(u64::from(hi) * 4294967296 + u64::from(lo))
}

// A line without its newline: the call, and how many words it has, which are then the first of `words`. None where it has not the form of a case.
pub fn parse(line: &[u8], words: &mut [u64]) -> Option<Line>
    ensures { IfSome result (λ l. l.count ≤ length words.new) }
{
    let call = hexadecimal::hex2(line, 0)?;
    let digits = line.get(2..)?;
    let count = digits.len() / 17;
    if digits.len() % 17 != 0 || words.len() < count {
        return None;
    }
    for (slot, text) in words.iter_mut().zip(digits.chunks_exact(17)) {
        *slot = word(text)?;
    }
    Some(Line {
        call: u64::from(call),
        count,
    })
}
