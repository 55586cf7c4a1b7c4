// Runs at sizes that a line of the replay can't reach, each held against the Rust to the bit: builds of the pair list, evaluations, steps. A program of `tools/`
// writes each part of the output by the Rust itself: digests.rs, evaluations.rs, steps.rs, in this order.
#![tactic(auto)]

mod builds;
mod liquid;
mod parts;
mod runs;
mod show;
mod terms;

fn main() {
    builds::all();
    runs::all();
}
