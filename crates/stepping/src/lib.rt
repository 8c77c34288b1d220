// One line in the steps of its order, and what is tested before its first step.
#![tactic(auto)]

pub mod line_steps;
