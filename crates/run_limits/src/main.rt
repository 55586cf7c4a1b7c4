// What a line of the replay can't reach: 16,384 atoms and one more, 32,768 cells and one more, one start too few, of the whole-number frame, of the
// pair list and of verlet's calls; then 16,385 atoms of the other calls that take atoms, a frame past half its edge, and the calls that have no line. It
// makes its own inputs by whole-number arithmetic. A part's lines are told at the head of its file; `tools/limits.py`, a plain model, writes the same.
#![tactic(auto)]

mod floats;
mod frames;
mod half;
mod pair_lists;
mod parts;
mod refused;
mod show;
mod speeds;

fn main() {
    frames::all();
    pair_lists::all();
    speeds::all();
    refused::all();
    half::all();
    parts::all();
}
