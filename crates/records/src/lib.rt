//! Words of four bytes and records of words: one reading for every kind of record.
#![tactic(auto)]

pub mod list;
pub mod record;
pub mod rows;
pub mod word;
