// The program `pairs`: a job sheet in, its pair list out.
#![tactic(auto)]

fn main() {
    let mut input = [0u8; 65537];
    let mut out = [0u8; 90133];
    sheet_console::run(&mut input, &mut out);
}
