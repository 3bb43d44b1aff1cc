//! The lines of a replay script about runs and the memory, read into what they ask for.
#![tactic(auto)]

pub mod line;
