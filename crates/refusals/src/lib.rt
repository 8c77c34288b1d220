// The refusals 9, 17, 8 and 10 of a line by the running state.
#![tactic(auto)]

pub mod judged;
pub mod memory_use;
