//! What a line about stores does to the loose store, and what is answered.
#![tactic(auto)]

pub mod answer;
mod ask;
pub mod build;
pub mod either;
pub mod obey;
