// A job sheet from standard input, its written form to standard output.
ghost use Rattle.std.specs.Prelude.{◌≡◌, ◌≤◌, length, take};
ghost use Rattle.std.proofs.lemmas.List.Edits.{sets};
ghost use Rattle.sheet_rewritten.specs.Rewrite.{rewritten, rewrite_of};

use crate::{put_front, read_sheet};
use sheet_rewritten::rewrite;

// The written form of one sheet, or its refusal's line; `out` is room to write it in.
pub fn print_form(sheet: &[u8], out: &mut [u8])
    ensures { out.new ≡ (rewrite_of sheet.now out.old).out }
{
    if let Ok(bytes) = rewrite(sheet, out) {
        put_front(out, bytes);
    }
}

// The written form of the sheet on standard input, in room as `crate::run` has it; how many bytes it read.
pub fn run(input: &mut [u8; 65537], out: &mut [u8; 43049]) -> usize
    ensures { out.new ≡ sets out.old 0 (rewritten (take result input.new)) }
{
    let got = read_sheet(input);
    print_form(&input[..got], out);
    got
}
