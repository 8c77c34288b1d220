// The runs of an image on a state and a memory.
#![tactic(auto)]

pub mod report;
pub mod run;
