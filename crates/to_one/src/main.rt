// The program `to_one`: a job sheet of the second form in, the sheet in the first form out.
#![tactic(auto)]

fn main() {
    let mut input = [0u8; 65537];
    let mut out = [0u8; 43049];
    sheet_console::forms::run_one(&mut input, &mut out);
}
