//! Runs of modules on any store: begin, step and go.
#![tactic(auto)]

mod acting;
mod asking;
pub mod beginning;
mod calling;
mod computing;
mod entered;
pub mod going;
mod heaping;
mod performing;
mod pointing;
mod reaching;
pub mod reading;
pub mod run;
pub mod stepping;
