//! The lines of a replay script about modules, read into what they ask for.
#![tactic(auto)]

pub mod line;
