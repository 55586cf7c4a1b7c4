// The program `clumps`: a job sheet in, the clumps of its pair list out.
#![tactic(auto)]

fn main() {
    let mut input = [0u8; 65537];
    let mut out = [0u8; 11264];
    clumps_console::run(&mut input, &mut out);
}
