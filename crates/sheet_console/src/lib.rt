// A job sheet from standard input, its printed answer to standard output; in `rewriting` its written form, in `forms` a sheet of either form.
#![tactic(auto)]

pub mod forms;
pub mod rewriting;

ghost use Rattle.std.specs.Prelude.{◌≡◌, ◌≤◌, length, take};
ghost use Rattle.std.proofs.lemmas.List.Edits.{sets};
ghost use Rattle.sheet_answer.specs.Solve.{printed, solve_of};

use sheet_answer::solve;

// The number of standard input.
const STDIN: i32 = 0;
// The number of standard output.
const STDOUT: i32 = 1;

// The first bytes of a buffer, to standard output.
pub(crate) fn put_front(out: &[u8], bytes: u64)
    requires { bytes ≤ length out.now }
{
    io::write_all(STDOUT, &out[..bytes as usize]);
}

// Reads a sheet from standard input, as far as there is room for it; how many bytes it is.
pub(crate) fn read_sheet(input: &mut [u8]) -> usize
    ensures { result ≤ length input.new }
{
    io::read_full(STDIN, input)
}

// The answer of one sheet, or its refusal's line; `out` is room to write it in.
pub fn print(sheet: &[u8], out: &mut [u8])
    ensures { out.new ≡ (solve_of sheet.now out.old).out }
{
    if let Ok(bytes) = solve(sheet, out) {
        put_front(out, bytes);
    }
}

// The answer of the sheet on standard input. Room for one byte more than a sheet may have, so that a longer one is seen to be longer, and for the longest
// answer, so that every sheet's whole text is printed; how many bytes it read.
pub fn run(input: &mut [u8; 65537], out: &mut [u8; 90133]) -> usize
    ensures { out.new ≡ sets out.old 0 (printed (take result input.new)) }
{
    let got = read_sheet(input);
    print(&input[..got], out);
    got
}
