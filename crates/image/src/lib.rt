// Images: the directory, the check call, and an image's bytes.
#![tactic(auto)]

pub mod bytes;
pub mod check;
pub mod directory;
pub mod lines;
