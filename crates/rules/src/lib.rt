//! The rules that records keep together: what they name is there, and their types are right.
#![tactic(auto)]

pub mod fault;
pub mod judging;
pub mod lookup;
pub mod place;
pub mod reading;
pub mod rule;
mod ruled;
