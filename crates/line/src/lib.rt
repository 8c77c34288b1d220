// Lines: rules 3, 15, 16 and 4 to 7 on a line's words, in one pass over its slots.
#![tactic(auto)]

pub mod check;
pub mod rules;
pub mod usage;
