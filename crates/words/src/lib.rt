//! The lines of a text, and the words of a line, read one after another.
#![tactic(auto)]

pub mod fault;
mod number;
mod reading;
pub mod text;
pub mod words;
