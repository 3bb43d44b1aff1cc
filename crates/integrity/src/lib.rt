//! The integrity theorem over all sequences of calls.
#![tactic(auto)]
