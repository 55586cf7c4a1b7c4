// A job sheet from standard input, its clumps to standard output.
#![tactic(auto)]

ghost use Rattle.std.specs.Prelude.{◌≡◌, ◌≤◌, length, take};
ghost use Rattle.std.proofs.lemmas.List.Edits.{sets};
ghost use Rattle.clumps_answer.specs.Clumps.{clumps_printed, solve_clumps_of};

use clumps_answer::solve_clumps;

// The number of standard input.
const STDIN: i32 = 0;
// The number of standard output.
const STDOUT: i32 = 1;

// The first bytes of a buffer, to standard output.
fn put_front(out: &[u8], bytes: u64)
    requires { bytes ≤ length out.now }
{
    io::write_all(STDOUT, &out[..bytes as usize]);
}

// The clumps of one sheet, or its refusal's line; `out` is room to write it in.
pub fn print(sheet: &[u8], out: &mut [u8])
    ensures { out.new ≡ (solve_clumps_of sheet.now out.old).out }
{
    if let Ok(bytes) = solve_clumps(sheet, out) {
        put_front(out, bytes);
    }
}

// The clumps of the sheet on standard input. Room for one byte more than a sheet may have, so that a longer one is seen to be longer, and for the longest
// answer, so that every sheet's whole text is printed; how many bytes it read.
pub fn run(input: &mut [u8; 65537], out: &mut [u8; 11264]) -> usize
    ensures { out.new ≡ sets out.old 0 (clumps_printed (take result input.new)) }
{
    let got = io::read_full(STDIN, input);
    print(&input[..got], out);
    got
}
