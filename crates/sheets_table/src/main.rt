// A table of job sheets, each after a letter and its length (eight hexadecimal digits and a newline): p is answered as `pairs` would, r as `rewrite`, c as
// `clumps`, and f, of either form, as `pairs_either`, `to_two` and `to_one`, one after the other.
#![tactic(auto)]

use hexadecimal::hex8;
use sheet_console::forms::{print_either, print_one, print_two};
use sheet_console::print;
use sheet_console::rewriting::print_form;

// The number of standard input.
const STDIN: i32 = 0;

fn print_by(letter: u8, sheet: &[u8], out: &mut [u8]) {
    match letter {
        b'p' => {
            print(sheet, out);
        }
        b'r' => {
            print_form(sheet, out);
        }
        b'c' => {
            clumps_console::print(sheet, out);
        }
        _ => {
            print_either(sheet, out);
            print_two(sheet, out);
            print_one(sheet, out);
        }
    }
}

fn read_and_print(letter: u8, sheet: &mut [u8], out: &mut [u8]) {
    let got = io::read_full(STDIN, sheet);
    print_by(letter, &sheet[..got], out);
}

// One sheet, as long as its head says.
fn print_next(head: &[u8; 10], sheet: &mut [u8], out: &mut [u8]) {
    let Some(digits) = hex8(head, 1) else {
        return;
    };
    let size = digits as usize;
    if size <= sheet.len() {
        read_and_print(head[0], &mut sheet[..size], out);
    }
}

// A proved loop has to end, and nothing says that the input does: the turns are as many as no run uses up.
fn print_all(head: &mut [u8; 10], sheet: &mut [u8], out: &mut [u8]) {
    for _ in 0..u64::MAX {
        if io::read_full(STDIN, head) != 10 {
            break;
        }
        print_next(head, sheet, out);
    }
}

// Room for the longest sheet of the table, of 65,547 bytes.
fn main() {
    let mut head = [0u8; 10];
    let mut sheet = [0u8; 65600];
    let mut out = [0u8; 90133];
    print_all(&mut head, &mut sheet, &mut out);
}
