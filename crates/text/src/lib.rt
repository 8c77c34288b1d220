// Reading text: its parts, the numbers in it, and words of a table.
#![tactic(auto)]

pub mod numbers;
pub mod numerals;
pub mod parts;
pub mod tables;
