//! The lines of a replay script about stores, read into commands.
#![tactic(auto)]

pub mod command;
pub mod line;
mod value;
