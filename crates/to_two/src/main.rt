// The program `to_two`: a job sheet of the first form in, the sheet in the second form out, rule 01, each species 0.
#![tactic(auto)]

fn main() {
    let mut input = [0u8; 65537];
    let mut out = [0u8; 51243];
    sheet_console::forms::run_two(&mut input, &mut out);
}
