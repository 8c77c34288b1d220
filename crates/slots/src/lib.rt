// Slots: seven words read as a slot of a unit's family with its condition, or refused; and what an op alone tells of its stores.
#![tactic(auto)]

pub mod conditional_slot;
pub mod ops;
pub mod slot;
