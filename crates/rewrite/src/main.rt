// The program `rewrite`: a job sheet in, its written form out.
#![tactic(auto)]

fn main() {
    let mut input = [0u8; 65537];
    let mut out = [0u8; 43049];
    sheet_console::rewriting::run(&mut input, &mut out);
}
