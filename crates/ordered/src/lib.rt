// The ordered run: the steps of each line in place, in the order that the caller gives.
#![tactic(auto)]

pub mod run;
