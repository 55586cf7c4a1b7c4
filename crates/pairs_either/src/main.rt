// The program `pairs_either`: a job sheet of either form in, its pairs out as `pairs` prints them.
#![tactic(auto)]

fn main() {
    let mut input = [0u8; 65537];
    let mut out = [0u8; 90133];
    sheet_console::forms::run_either(&mut input, &mut out);
}
