// What is asked of a list before it is built or kept, as far as no state is needed for it: leaves for `neighbor`, total, no public call. A crate of its
// own, so that wrong programs of it are tried without the build.
#![tactic(auto)]

pub mod asked;
pub mod strays;
