//! What the lines of a replay script about runs and the memory do, and what is told of it.
#![tactic(auto)]

pub mod board;
mod digest;
mod listed;
mod listing;
mod memory;
pub mod report;
pub mod running;
