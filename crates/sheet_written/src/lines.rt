// The lines of a sheet, written into a lent buffer. What lies past the buffer's end is not written.
ghost use Rattle.std.specs.Prelude.{◌≡◌, ◌++◌, map, ◌≤◌, length};
ghost use Rattle.std.proofs.lemmas.List.Edits.{sets};
ghost use Rattle.lists.specs.Lists.{rows};
ghost use Rattle.hexadecimal.specs.Glyphs.{text2, text4, text8};
ghost use Rattle.sheet_lines.specs.Grammar.{text888, line_text, sheet_text};
ghost use Rattle.sheet_lines.specs.declared.Line.TheVariants.{Header, Atom};
ghost use Rattle.sheet_written.specs.Written.{atom_lines, row_line};

use hexadecimal::{put_byte, put2, put4, put8};
use sheet_lines::Head;
use sheet_printed::put_two;

// Three numbers of eight digits.
fn put888(out: &mut [u8], at: usize, x: u32, y: u32, z: u32)
    requires { at ≤ 65536 }
    ensures { out.new ≡ sets out.old at (text888 x y z) }
{
    put8(out, at, x as u64);
    put8(out, at + 8, y as u64);
    put8(out, at + 16, z as u64);
}

// A header's 40 digits, those of its kind first: 01, or 11 in the second form.
pub(crate) fn put_head(out: &mut [u8], kind: u64, h: Head)
    ensures { out.new ≡ sets out.old 0 (text2 kind ++ text4 h.atoms ++ text888 h.ex h.ey h.ez ++ text2 h.mask ++ text8 h.radius) }
{
    put2(out, 0, kind);
    put4(out, 2, h.atoms as u64);
    put888(out, 6, h.ex, h.ey, h.ez);
    put2(out, 30, h.mask as u64);
    put8(out, 32, h.radius as u64);
}

// An atom's 30 digits, those of its kind first: 02, or 12 in the second form.
pub(crate) fn put_place(out: &mut [u8], at: usize, kind: u64, number: u32, x: u32, y: u32, z: u32)
    requires { at ≤ 65500 }
    ensures { out.new ≡ sets out.old at (text2 kind ++ text4 number ++ text888 x y z) }
{
    put2(out, at, kind);
    put4(out, at + 2, number as u64);
    put888(out, at + 6, x, y, z);
}

pub(crate) fn put_header(out: &mut [u8], h: Head)
    ensures { out.new ≡ sets out.old 0 (line_text (Header h)) }
{
    put_head(out, 1, h);
    put_byte(out, 40, 10);
}

fn put_atom(out: &mut [u8], at: usize, number: u32, x: u32, y: u32, z: u32)
    requires { at ≤ 65500 }
    ensures { out.new ≡ sets out.old at (line_text (Atom number x y z)) }
{
    put_place(out, at, 2, number, x, y, z);
    put_byte(out, at + 30, 10);
}

// The atoms by number, after the header's 41 bytes.
pub(crate) fn put_atoms(out: &mut [u8], xs: &[u32])
    requires { length xs.now ≤ 3074 }
    ensures { out.new ≡ sets out.old 41 (sheet_text (atom_lines xs.now)) }
{
    let n = xs.len() / 3;
    for i in 0..n {
        put_atom(
            out,
            41 + 31 * i,
            i as u32,
            xs[3 * i],
            xs[3 * i + 1],
            xs[3 * i + 2],
        );
    }
}

// The exclusions, a line 03 a row.
pub(crate) fn put_rows(out: &mut [u8], at: usize, table: &[u32])
    requires { (at ≤ 43008) × (length table.now ≤ 2049) }
    ensures { out.new ≡ sets out.old at (sheet_text (map row_line (rows table.now))) }
{
    let m = table.len() / 2;
    for i in 0..m {
        let low = table[2 * i] as u64;
        let high = table[2 * i + 1] as u64;
        put_two(out, at + 11 * i, 3, low, high);
    }
}
