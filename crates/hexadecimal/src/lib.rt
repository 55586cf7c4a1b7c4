// Lowercase hexadecimal numbers of 2, 4 and 8 digits, read from bytes and written into them. A place past the end reads as no
// digit, and nothing is written there.
#![tactic(auto)]

ghost use Rattle.std.specs.Prelude.{◌≡◌, ℕ, ◌≤◌, ◌<◌, Some, set};
ghost use Rattle.std.proofs.lemmas.List.Edits.{sets};
ghost use Rattle.hexadecimal.specs.Digits.{byte_at, digit_of, number_or, number_at, hex2 as digits_hex2, hex4 as digits_hex4, hex8 as digits_hex8};
ghost use Rattle.hexadecimal.specs.Glyphs.{glyph_of, text2, text4, text8};

// The byte at a place, and 0 past the end.
pub fn byte_at(s: &[u8], at: usize) -> u8
    ensures { result ≡ byte_at s.now at }
{
    if at < s.len() { s[at] } else { 0 }
}

// The value of a digit; none for any other byte.
pub fn digit(b: u8) -> Option<u8>
    ensures value { number_or 16 result ≡ digit_of b }
    ensures below { (d : ℕ) → result ≡ Some d → d < 16 }
    ensures is { result ≡ number_at 16 (digit_of b) }
{
    if b < 48 {
        None
    } else if b < 58 {
        Some(b - 48)
    } else if b < 97 {
        None
    } else if b < 103 {
        Some(b - 87)
    } else {
        None
    }
}

// The number of two digits at a place; none where they are not two digits. (The first test keeps the places in range.)
pub fn hex2(s: &[u8], at: usize) -> Option<u8>
    ensures value { number_or 256 result ≡ digits_hex2 s.now at }
    ensures is { result ≡ number_at 256 (digits_hex2 s.now at) }
{
    if s.len() <= at {
        return None;
    }
    let hi = digit(byte_at(s, at))?;
    let lo = digit(byte_at(s, at + 1))?;
    Some(hi * 16 + lo)
}

pub fn hex4(s: &[u8], at: usize) -> Option<u16>
    ensures value { number_or 65536 result ≡ digits_hex4 s.now at }
    ensures is { result ≡ number_at 65536 (digits_hex4 s.now at) }
{
    if s.len() <= at {
        return None;
    }
    let hi = hex2(s, at)?;
    let lo = hex2(s, at + 2)?;
    Some(hi as u16 * 256 + lo as u16)
}

pub fn hex8(s: &[u8], at: usize) -> Option<u32>
    ensures value { number_or 4294967296 result ≡ digits_hex8 s.now at }
    ensures is { result ≡ number_at 4294967296 (digits_hex8 s.now at) }
{
    if s.len() <= at {
        return None;
    }
    let hi = hex4(s, at)?;
    let lo = hex4(s, at + 4)?;
    Some(hi as u32 * 65536 + lo as u32)
}

fn glyph(d: u64) -> u8
    requires { d < 16 }
    ensures { result ≡ glyph_of d }
{
    if d < 10 { 48 + d as u8 } else { 87 + d as u8 }
}

// A byte at a place, if the place is there.
pub fn put_byte(out: &mut [u8], at: usize, b: u8)
    ensures { out.new ≡ set out.old at b }
{
    if at < out.len() {
        out[at] = b;
    }
}

// The last two digits of a number, as far as the places are there.
pub fn put2(out: &mut [u8], at: usize, n: u64)
    ensures { out.new ≡ sets out.old at (text2 n) }
{
    if out.len() <= at {
        return;
    }
    put_byte(out, at, glyph(n / 16 % 16));
    put_byte(out, at + 1, glyph(n % 16));
}

pub fn put4(out: &mut [u8], at: usize, n: u64)
    ensures { out.new ≡ sets out.old at (text4 n) }
{
    if out.len() <= at {
        return;
    }
    put2(out, at, n / 256);
    put2(out, at + 2, n % 256);
}

pub fn put8(out: &mut [u8], at: usize, n: u64)
    ensures { out.new ≡ sets out.old at (text8 n) }
{
    if out.len() <= at {
        return;
    }
    put4(out, at, n / 65536);
    put4(out, at + 4, n % 65536);
}
