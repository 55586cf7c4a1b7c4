// The written form of a frame in the second form of a sheet (02, No. 9 and 10), rule 01, each species 0. specs/WrittenTwo.antt says which bytes, and
// what `write_two` answers and leaves.
ghost use Rattle.std.specs.Prelude.{◌≡◌, ◌≤◌, length};
ghost use Rattle.std.proofs.lemmas.List.Edits.{sets};
ghost use Rattle.sheet_lines_two.specs.Grammar.{text_with};
ghost use Rattle.sheet_lines.specs.declared.Line.TheVariants.{Header, Atom};
ghost use Rattle.sheet_written.specs.Written.{atom_lines};
ghost use Rattle.sheet_written.specs.WrittenTwo.{plain_text, WriteTwoSays};

use crate::asked::asked;
use crate::head_of;
use crate::lines::{put_head, put_place, put_rows};
use answer::Refusal;
use frame::Frame;
use hexadecimal::{put_byte, put2, put8};
use sheet_lines::Head;

fn put_header_two(out: &mut [u8], h: Head)
    ensures { out.new ≡ sets out.old 0 (text_with (Header h) 1) }
{
    put_head(out, 17, h);
    put2(out, 40, 1);
    put_byte(out, 42, 10);
}

fn put_atom_two(out: &mut [u8], at: usize, number: u32, x: u32, y: u32, z: u32)
    requires { at ≤ 65400 }
    ensures { out.new ≡ sets out.old at (text_with (Atom number x y z) 0) }
{
    put_place(out, at, 18, number, x, y, z);
    put8(out, at + 30, 0);
    put_byte(out, at + 38, 10);
}

// The atoms by number, after the header's 43 bytes.
fn put_atoms_two(out: &mut [u8], xs: &[u32])
    requires { length xs.now ≤ 3074 }
    ensures { out.new ≡ sets out.old 43 (plain_text (atom_lines xs.now)) }
{
    let n = xs.len() / 3;
    for i in 0..n {
        put_atom_two(
            out,
            43 + 39 * i,
            i as u32,
            xs[3 * i],
            xs[3 * i + 1],
            xs[3 * i + 2],
        );
    }
}

// As `write`, in the second form.
pub fn write_two(
    f: Frame,
    coordinates: &[u32],
    exclusions: &[u32],
    out: &mut [u8],
) -> Result<u64, Refusal>
    ensures { WriteTwoSays f coordinates.now exclusions.now out.old result out.new }
{
    asked(f, coordinates, exclusions)?;
    let n = coordinates.len() / 3;
    let m = exclusions.len() / 2;
    let bytes = 43 + 39 * n + 11 * m;
    if out.len() < bytes {
        return Err(Refusal::Room { count: bytes });
    }
    put_header_two(out, head_of(f, n as u32));
    put_atoms_two(out, coordinates);
    put_rows(out, 43 + 39 * n, exclusions);
    Ok(bytes as u64)
}
