//! Safe stores: what a store is, and what every make does with its slots.
#![tactic(auto)]

pub mod slots;
pub mod store;
