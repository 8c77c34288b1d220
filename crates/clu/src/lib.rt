// The arithmetic of the communications logic unit on words, with no state.
#![tactic(auto)]

pub mod correction;
pub mod despread;
pub mod shorts;
pub mod tmax;
pub mod trellis;
pub mod unit;
