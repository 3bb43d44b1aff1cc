//! What a replay script does, line by line: to a store, to a module, and to a run and its memory.
#![tactic(auto)]

pub mod desk;
mod doing;
pub mod told;
