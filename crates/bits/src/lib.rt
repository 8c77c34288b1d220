// What the units share: signed values of words, flag groups, and one of two by a test.
#![tactic(auto)]

pub mod flags;
pub mod select;
pub mod signed;
