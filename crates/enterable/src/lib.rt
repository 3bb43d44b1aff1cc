//! Which functions a run of a module can enter.
#![tactic(auto)]

pub mod finding;
pub mod functions;
pub mod leading;
mod places;
pub mod way;
