// Sets of register places as words of bits, the set that a slot stores, and ranges of memory words.
#![tactic(auto)]

pub mod place_set;
pub mod range;
pub mod stored;
