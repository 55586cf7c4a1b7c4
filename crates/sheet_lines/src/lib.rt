// One line of a job sheet: what stands at a place of the input.
#![tactic(auto)]

ghost use Rattle.std.specs.Prelude.{◌≡◌, ◌+◌, ◌<◌, ◌^◌};
ghost use Rattle.hexadecimal.specs.Digits.{number_or};
ghost use Rattle.sheet_lines.specs.Reading.{three_of, three_at, header_of, atom_of, exclusion_of, line_at, line_width};

use hexadecimal::{byte_at, hex2, hex4, hex8};

// The header's numbers, as they stand: the mask has x at bit 0.
#[derive(Clone, Copy)]
pub struct Head {
    pub atoms: u32,
    pub ex: u32,
    pub ey: u32,
    pub ez: u32,
    pub mask: u32,
    pub radius: u32,
}

#[derive(Clone, Copy)]
pub enum Line {
    Header(Head),
    Atom { number: u32, x: u32, y: u32, z: u32 },
    Exclusion { first: u32, second: u32 },
    // Bytes that are none of the three lines.
    Malformed,
    // No bytes are left.
    End,
}

// Three numbers of eight digits, where all are numbers.
pub fn three_of(x: Option<u32>, y: Option<u32>, z: Option<u32>) -> Option<(u32, u32, u32)>
    ensures { result ≡ three_of (number_or (2 ^ 32) x) (number_or (2 ^ 32) y) (number_or (2 ^ 32) z) }
{
    Some((x?, y?, z?))
}

// Three numbers of eight digits each.
fn three_at(s: &[u8], at: usize) -> Option<(u32, u32, u32)>
    requires { at + 23 < 2 ^ 64 }
    ensures { result ≡ three_at s.now at }
{
    let x = hex8(s, at);
    let y = hex8(s, at + 8);
    let z = hex8(s, at + 16);
    three_of(x, y, z)
}

pub fn header_of(
    atoms: Option<u16>,
    edges: Option<(u32, u32, u32)>,
    mask: Option<u8>,
    radius: Option<u32>,
    end: u8,
) -> Line
    ensures { result ≡ header_of (number_or (2 ^ 16) atoms) edges (number_or (2 ^ 8) mask) (number_or (2 ^ 32) radius) end }
{
    let Some((x, y, z)) = edges else {
        return Line::Malformed;
    };
    let Some(atoms) = atoms else {
        return Line::Malformed;
    };
    let Some(mask) = mask else {
        return Line::Malformed;
    };
    if 8 <= mask {
        return Line::Malformed;
    }
    let Some(radius) = radius else {
        return Line::Malformed;
    };
    if end != 10 {
        return Line::Malformed;
    }
    Line::Header(Head {
        atoms: atoms as u32,
        ex: x,
        ey: y,
        ez: z,
        mask: mask as u32,
        radius,
    })
}

pub fn atom_of(number: Option<u16>, place: Option<(u32, u32, u32)>, end: u8) -> Line
    ensures { result ≡ atom_of (number_or (2 ^ 16) number) place end }
{
    let Some((x, y, z)) = place else {
        return Line::Malformed;
    };
    let Some(number) = number else {
        return Line::Malformed;
    };
    if number < 1024 {
        if end == 10 {
            return Line::Atom {
                number: number as u32,
                x,
                y,
                z,
            };
        }
    }
    Line::Malformed
}

pub fn exclusion_of(a: Option<u16>, b: Option<u16>, end: u8) -> Line
    ensures { result ≡ exclusion_of (number_or (2 ^ 16) a) (number_or (2 ^ 16) b) end }
{
    let Some(first) = a else {
        return Line::Malformed;
    };
    let Some(second) = b else {
        return Line::Malformed;
    };
    if end != 10 {
        return Line::Malformed;
    }
    Line::Exclusion {
        first: first as u32,
        second: second as u32,
    }
}

// The line that starts at a place.
pub fn line_at(s: &[u8], at: usize) -> Line
    ensures { result ≡ line_at s.now at }
{
    if s.len() <= at {
        return Line::End;
    }
    let Some(kind) = hex2(s, at) else {
        return Line::Malformed;
    };
    if kind == 1 {
        let atoms = hex4(s, at + 2);
        let edges = three_at(s, at + 6);
        let mask = hex2(s, at + 30);
        let radius = hex8(s, at + 32);
        let end = byte_at(s, at + 40);
        return header_of(atoms, edges, mask, radius, end);
    }
    if kind == 2 {
        let number = hex4(s, at + 2);
        let place = three_at(s, at + 6);
        let end = byte_at(s, at + 30);
        return atom_of(number, place, end);
    }
    if kind == 3 {
        let a = hex4(s, at + 2);
        let b = hex4(s, at + 6);
        let end = byte_at(s, at + 10);
        return exclusion_of(a, b, end);
    }
    Line::Malformed
}

// How many bytes a line takes, its newline with it.
pub fn width(line: Line) -> usize
    ensures { result ≡ line_width line }
{
    match line {
        Line::Header(_) => 41,
        Line::Atom {
            number: _,
            x: _,
            y: _,
            z: _,
        } => 31,
        Line::Exclusion {
            first: _,
            second: _,
        } => 11,
        Line::Malformed => 0,
        Line::End => 0,
    }
}
