//! The six lists of a module as an image has them, each record read for itself.
#![tactic(auto)]

pub mod image;
pub mod items;
pub mod lists;
pub mod parts;
mod reading;
