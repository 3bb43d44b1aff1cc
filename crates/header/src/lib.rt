//! The words in front of an image's lists: version, memory size, depth and contents.
#![tactic(auto)]

pub mod counts;
pub mod fault;
pub mod front;
pub mod header;
pub mod starts;
