//! A module: an image that follows every rule, with what a step has to know of it.
#![tactic(auto)]

pub mod asking;
pub mod fault;
pub mod module;
pub mod reading;
pub mod running;
