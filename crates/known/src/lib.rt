// Slots of a line that passed the check, read again.
#![tactic(auto)]

pub mod slot;
