// What one pair of atoms adds: the kernels of potentials.rs over a pair's numbers, and the species table. Total, and no public call.
#![tactic(auto)]

pub mod bonds;
pub mod coulomb;
pub mod kernel;
pub mod lennard_jones;
pub mod species;

// The Lennard-Jones numbers of a species, or of two that are mixed.
#[derive(Drop)]
pub struct Mixed {
    pub epsilon: f64,
    pub sigma: f64,
}

// What the formulas need of two species: 4 epsilon, sigma squared, and the energy at the cutoff.
#[derive(Clone, Copy)]
pub struct Numbers {
    pub depth: f64,
    pub square: f64,
    pub shift: f64,
}

// How the sigmas of two species are mixed: the half sum, as the Rust has it, or the root of the product (02, No. 10). Epsilons mix as they do there in both.
#[derive(Clone, Copy)]
pub enum Mixing {
    HalfSum,
    Geometric,
}

// A Lennard-Jones term; epsilon and sigma are those of a species that its table lacks. (The Rust's `LennardJones`; its `params` are a lent table.)
#[derive(Clone, Copy)]
pub struct Lj {
    pub epsilon: f64,
    pub sigma: f64,
    pub cutoff: f64,
    pub shift: bool,
    pub rule: Mixing,
}

// The species tables, a desk's own before the house's, as they are lent: ids ascending, and epsilon and sigma for each id. The Rust's hash map. A row that is
// handed out is a part of the numbers, so these may be lent for longer than the ids.
#[derive(Clone, Copy)]
pub struct SpeciesTables<'i, 'a> {
    pub own_ids: &'i [u32],
    pub own_params: &'a [f64],
    pub ids: &'i [u32],
    pub params: &'a [f64],
}
