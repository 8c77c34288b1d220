// The machine that a line of slots runs on: its state by value, and the condition call.
#![tactic(auto)]

pub mod condition;
pub mod state;
