// The checks of a build without a lookup for each candidate: all candidates, less the exclusion rows that are among them. For both frames.
#![tactic(auto)]

pub mod kernel;
