// The arithmetic of the ALUs, shifters and IALUs on 32-bit words, with no state: each unit's dispatch by op number.
#![tactic(auto)]

pub mod alu;
pub mod circular;
pub mod ialu;
pub mod reverse;
pub mod shifter;
