//! The safe stack: the frames that stand, in a fixed place.
#![tactic(auto)]

pub mod stack;
