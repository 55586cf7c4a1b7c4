// Lennard-Jones, harmonic bonds and the direct Coulomb sum over a list of pairs (potentials.rs): the terms, and the work without tests, for the crates above:
// `kernel`, and the range tests in `ranged`. The public calls, which test their arguments, are `potentials_calls`; specs/Calls.antt says what each answers
// and leaves.
#![tactic(auto)]

use answer::Refusal;
use potentials_pair::Lj;
use virial::Sum;

mod block;
mod bonds;
mod both;
pub mod coulomb;
mod kept;
pub mod kernel;
pub mod lennard_jones;
mod pairs;
pub mod ranged;
mod rows;
pub mod species;

// A force constant, and a length at rest. (The Rust's `HarmonicBonds`; its tables are lent.)
#[repr(C)]
#[derive(Clone, Copy)]
pub struct Bond {
    pub k: f64,
    pub r0: f64,
}

// The bonds, as they are lent: two atoms a row, and for each row a length at rest and a force constant of its own, the Rust's per_bond and per_bond_k. A row
// past the end of `lengths` or `ks` takes the number of a `Bond`.
#[derive(Clone, Copy)]
pub struct BondRows<'a> {
    pub ends: &'a [u32],
    pub lengths: &'a [f64],
    pub ks: &'a [f64],
}

// What one walk over a list sums: each term from zero.
#[derive(Drop)]
pub struct BothSums {
    pub lj: Sum,
    pub coulomb: Sum,
}
