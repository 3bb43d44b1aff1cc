//! What a step has to know of a module, looked up beforehand.
#![tactic(auto)]

pub mod layout;
pub mod places;
