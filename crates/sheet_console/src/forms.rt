// Sheets of either form (02, No. 9 and 10) from standard input: the printed answer, or the sheet moved to the other form, to standard output.
ghost use Rattle.std.specs.Prelude.{◌≡◌, ◌≤◌, length, take};
ghost use Rattle.sheet_answer.specs.Either.{solve_either_of};
ghost use Rattle.sheet_moved.specs.Moved.{to_one_of, to_two_of};
ghost use Rattle.sheet_moved.specs.Whole.{moved_one, moved_two, laid_whole};

use crate::{put_front, read_sheet};
use sheet_answer::either::solve_either;
use sheet_moved::{MoveError, to_one, to_two};
use sheet_printed::put_refusal;

// The answer of one sheet, or its refusal's line; `out` is room to write it in.
pub fn print_either(sheet: &[u8], out: &mut [u8])
    ensures { out.new ≡ (solve_either_of sheet.now out.old).out }
{
    if let Ok(bytes) = solve_either(sheet, out) {
        put_front(out, bytes);
    }
}

fn print_line(number: u64, place: u64) {
    let mut line = [0u8; 13];
    let bytes = put_refusal(&mut line, number, place);
    put_front(&line, bytes as u64);
}

// A sheet moved to the second form, or its refusal's line.
pub fn print_two(sheet: &[u8], out: &mut [u8])
    ensures { out.new ≡ (to_two_of sheet.now out.old).out }
{
    match to_two(sheet, out) {
        Ok(bytes) => put_front(out, bytes),
        Err(r) => print_line(r.number(), r.place()),
    }
}

// A sheet moved to the first form, or its refusal's line: 0c is 12.
pub fn print_one(sheet: &[u8], out: &mut [u8])
    ensures { out.new ≡ (to_one_of sheet.now out.old).out }
{
    match to_one(sheet, out) {
        Ok(bytes) => put_front(out, bytes),
        Err(MoveError::Refused(r)) => print_line(r.number(), r.place()),
        Err(MoveError::NoWayBack { place }) => print_line(12, place as u64),
    }
}

// Room for one byte more than a sheet may have, and for the longest answer; how many bytes it read.
pub fn run_either(input: &mut [u8; 65537], out: &mut [u8; 90133]) -> usize
    ensures { out.new ≡ (solve_either_of (take result input.new) out.old).out }
{
    let got = read_sheet(input);
    print_either(&input[..got], out);
    got
}

// Room for one byte more than a sheet may have, and for the longest form: a header, 1,024 atoms, 1,024 exclusions; how many bytes it read.
pub fn run_two(input: &mut [u8; 65537], out: &mut [u8; 51243]) -> usize
    ensures { out.new ≡ (laid_whole (moved_two (take result input.new)) out.old).out }
{
    let got = read_sheet(input);
    print_two(&input[..got], out);
    got
}

// Room for one byte more than a sheet may have, and for the longest written form; how many bytes it read.
pub fn run_one(input: &mut [u8; 65537], out: &mut [u8; 43049]) -> usize
    ensures { out.new ≡ (laid_whole (moved_one (take result input.new)) out.old).out }
{
    let got = read_sheet(input);
    print_one(&input[..got], out);
    got
}
