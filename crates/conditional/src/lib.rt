// A slot in its line: its condition around the fetch and the store of its family.
#![tactic(auto)]

pub mod line_slot;
