// The state as one array of words: its layout, its places read and stored by file and index, with memory beside it, and the ends
// of buffers.
#![tactic(auto)]

pub mod cell;
pub mod ends;
pub mod span;
pub mod table;
pub mod two_words;
