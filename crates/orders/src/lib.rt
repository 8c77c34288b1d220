// The orders of a line that are admissible.
#![tactic(auto)]

pub mod order;
