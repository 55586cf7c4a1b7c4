// One line of a job sheet of the second form (02, No. 9 and 10): header 11, with a rule at its end or without, atom 12 with a species
// at its end, exclusion 03. A line is what it says in the first form, with that one number more beside it, so that what it does is said
// once for both forms.
#![tactic(auto)]

ghost use Rattle.std.specs.Prelude.{◌≡◌, ◌+◌, ◌<◌, ◌^◌};
ghost use Rattle.hexadecimal.specs.Digits.{number_or};
ghost use Rattle.sheet_lines_two.specs.Twos.{plain_two, typed_two, ruled_two, header_two, two_at, head_wide, wide_two, width_two, rule_of, ruled_head, kind_of, told_of};

use hexadecimal::{byte_at, hex2, hex4, hex8};
use sheet_lines::{Head, Line, atom_of, exclusion_of, header_of, three_of};

// `extra`: an atom's species; a header's rule as it is written, 1 or 2, and 0 where none is; else 0.
#[derive(Clone, Copy)]
pub struct TwoLine {
    pub core: Line,
    pub extra: u32,
}

fn plain(core: Line) -> TwoLine
    ensures { result ≡ plain_two core }
{
    TwoLine { core, extra: 0 }
}

fn typed(core: Line, species: Option<u32>) -> TwoLine
    ensures { result ≡ typed_two core (number_or (2 ^ 32) species) }
{
    let Some(extra) = species else {
        return plain(Line::Malformed);
    };
    TwoLine { core, extra }
}

fn with_rule(core: Line, rule: Option<u8>) -> TwoLine
    ensures { result ≡ ruled_two core (number_or (2 ^ 8) rule) }
{
    let Some(rule) = rule else {
        return plain(Line::Malformed);
    };
    if rule == 1 {
        return TwoLine { core, extra: 1 };
    }
    if rule == 2 {
        return TwoLine { core, extra: 2 };
    }
    plain(Line::Malformed)
}

// The header that starts at a place: after its 40 digits a newline, or two digits more, the rule, and a newline.
fn header_at(s: &[u8], at: usize) -> TwoLine
    requires { at + 42 < 2 ^ 64 }
    ensures { result ≡ header_two s.now at }
{
    let atoms = hex4(s, at + 2);
    let x = hex8(s, at + 6);
    let y = hex8(s, at + 6 + 8);
    let z = hex8(s, at + 6 + 16);
    let mask = hex2(s, at + 30);
    let radius = hex8(s, at + 32);
    let end = byte_at(s, at + 40);
    if end == 10 {
        return plain(header_of(atoms, three_of(x, y, z), mask, radius, end));
    }
    let rule = hex2(s, at + 40);
    let last = byte_at(s, at + 40 + 2);
    with_rule(
        header_of(atoms, three_of(x, y, z), mask, radius, last),
        rule,
    )
}

// The line that starts at a place.
pub fn two_at(s: &[u8], at: usize) -> TwoLine
    ensures { result ≡ two_at s.now at }
{
    if s.len() <= at {
        return plain(Line::End);
    }
    let Some(kind) = hex2(s, at) else {
        return plain(Line::Malformed);
    };
    if kind == 17 {
        return header_at(s, at);
    }
    if kind == 18 {
        let number = hex4(s, at + 2);
        let x = hex8(s, at + 6);
        let y = hex8(s, at + 6 + 8);
        let z = hex8(s, at + 6 + 16);
        let species = hex8(s, at + 30);
        let end = byte_at(s, at + 38);
        return typed(atom_of(number, three_of(x, y, z), end), species);
    }
    if kind == 3 {
        let a = hex4(s, at + 2);
        let b = hex4(s, at + 6);
        let end = byte_at(s, at + 10);
        return plain(exclusion_of(a, b, end));
    }
    plain(Line::Malformed)
}

fn head_wide(extra: u32) -> usize
    ensures { result ≡ head_wide extra }
{
    if extra == 0 {
        return 41;
    }
    43
}

fn wide(core: Line, extra: u32) -> usize
    ensures { result ≡ wide_two core extra }
{
    match core {
        Line::Header(_) => head_wide(extra),
        Line::Atom {
            number: _,
            x: _,
            y: _,
            z: _,
        } => 39,
        Line::Exclusion {
            first: _,
            second: _,
        } => 11,
        Line::Malformed => 0,
        Line::End => 0,
    }
}

// How many bytes a line takes, its newline with it.
pub fn width_two(line: TwoLine) -> usize
    ensures { result ≡ width_two line }
{
    let core = line.core;
    wide(core, line.extra)
}

// The rule that a header says: 1 where none is written.
fn rule_of(extra: u32) -> u32
    ensures { result ≡ rule_of extra }
{
    if extra == 0 {
        return 1;
    }
    extra
}

fn ruled_head(h: Head, rule: u32) -> Head
    ensures { result ≡ ruled_head h rule }
{
    Head {
        atoms: h.atoms,
        ex: h.ex,
        ey: h.ey,
        ez: h.ez,
        mask: h.mask,
        radius: rule,
    }
}

fn kind(core: Line, extra: u32) -> Line
    ensures { result ≡ kind_of core extra }
{
    match core {
        Line::Header(h) => Line::Header(ruled_head(h, rule_of(extra))),
        Line::Atom {
            number,
            x: _,
            y: _,
            z: _,
        } => Line::Atom {
            number,
            x: extra,
            y: 0,
            z: 0,
        },
        Line::Exclusion { first, second } => Line::Exclusion { first, second },
        Line::Malformed => Line::Malformed,
        Line::End => Line::End,
    }
}

// The line in the first form: with its coordinates and its radius, or with its species and its rule where these stand.
pub fn told(line: TwoLine, kinds: bool) -> Line
    ensures { result ≡ told_of kinds line }
{
    let core = line.core;
    if kinds {
        return kind(core, line.extra);
    }
    core
}
