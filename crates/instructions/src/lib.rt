// Fetch and store of a slot as separate steps, on the state's words.
#![tactic(auto)]

mod block_fetch;
mod block_store;
mod dab_load;
pub mod fetch;
mod ialu_fetch;
mod ialu_store;
mod positions;
pub mod store;
pub mod stored_words;
