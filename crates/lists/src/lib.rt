// Definitions and laws on lists and loops, which every crate above cites: no code.
#![tactic(auto)]
