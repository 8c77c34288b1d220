// A state by value from its words, and back.
#![tactic(auto)]

pub mod words;
