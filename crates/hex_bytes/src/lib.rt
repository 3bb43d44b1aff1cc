//! Bytes in hex, both ways.
#![tactic(auto)]

pub mod hex;
