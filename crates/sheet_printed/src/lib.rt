// What the program prints for a sheet, written into a lent buffer. What lies past the buffer's end is not written.
#![tactic(auto)]

ghost use Rattle.std.specs.Prelude.{◌≡◌, [], ◌∷◌, ◌++◌, ◌*◌, ◌≤◌, length, take};
ghost use Rattle.std.proofs.lemmas.List.Edits.{sets};
ghost use Rattle.lists.specs.Lists.{rows};
ghost use Rattle.hexadecimal.specs.Glyphs.{text2, text4};
ghost use Rattle.sheet_printed.specs.Printed.{count_line, refusal_line, flag_of, pair_lines, built_text};

use hexadecimal::{put_byte, put2, put4, put8};

// 8f, the refusal's number and its place; how many bytes that is.
pub fn put_refusal(out: &mut [u8], number: u64, place: u64) -> usize
    ensures value { result ≡ length (refusal_line number place) }
    ensures out_after { out.new ≡ sets out.old 0 (refusal_line number place) }
{
    put2(out, 0, 143);
    put2(out, 2, number);
    put8(out, 4, place);
    put_byte(out, 12, 10);
    13
}

// A line of two numbers after its kind: a pair's is of kind 82.
pub fn put_two(out: &mut [u8], at: usize, kind: u64, first: u64, second: u64)
    ensures { out.new ≡ sets out.old at (text2 kind ++ text4 first ++ text4 second ++ (10 ∷ [])) }
{
    if out.len() <= at {
        return;
    }
    put2(out, at, kind);
    put4(out, at + 2, first);
    put4(out, at + 6, second);
    put_byte(out, at + 10, 10);
}

fn flag(on: bool) -> u64
    ensures { result ≡ flag_of on }
{
    if on { 1 } else { 0 }
}

// 81, the number of pairs, the checks, and 01 where all pairs were tried.
fn put_count(out: &mut [u8], pairs: u64, checks: u64, fallback: bool)
    ensures { out.new ≡ sets out.old 0 (count_line pairs checks fallback) }
{
    put2(out, 0, 129);
    put8(out, 2, pairs);
    put8(out, 10, checks);
    put2(out, 18, flag(fallback));
    put_byte(out, 20, 10);
}

// The lines of the first `count` rows of a table, from byte 21 on.
fn put_pairs(out: &mut [u8], pairs: &[u32], count: usize)
    requires { 2 * count ≤ length pairs.now }
    ensures { out.new ≡ sets out.old 21 (pair_lines (take count (rows pairs.now))) }
{
    for i in 0..count {
        let low = pairs[2 * i] as u64;
        let high = pairs[2 * i + 1] as u64;
        put_two(out, 21 + 11 * i, 130, low, high);
    }
}

// The answer of a build: its count line, and a line for each of the first `count` pairs that the table has; how many bytes
// that is.
pub fn put_built(out: &mut [u8], pairs: &[u32], count: usize, checks: u64, fallback: bool) -> usize
    ensures value { result ≡ length (built_text count checks fallback (take count (rows pairs.now))) }
    ensures out_after { out.new ≡ sets out.old 0 (built_text count checks fallback (take count (rows pairs.now))) }
{
    put_count(out, count as u64, checks, fallback);
    let there = pairs.len() / 2;
    if there < count {
        put_pairs(out, pairs, there);
        return 21 + 11 * there;
    }
    put_pairs(out, pairs, count);
    21 + 11 * count
}
