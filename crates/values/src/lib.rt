//! Values with a mark.
#![tactic(auto)]

pub mod bounds;
pub mod marked;
