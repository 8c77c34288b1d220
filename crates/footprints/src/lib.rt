// The places that a slot reads and those that it stores.
#![tactic(auto)]

pub mod footprint;
pub mod line_slot;
pub mod slot_reads;
pub mod slot_stores;
