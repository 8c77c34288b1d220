// The step machine: fetch and store of each slot as separate steps in place.
#![tactic(auto)]

pub mod perform;
