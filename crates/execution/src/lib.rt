// One line on the running state: the plain line.
#![tactic(auto)]

pub mod fetched_line;
pub mod plain_line;
pub mod thr_priority;
