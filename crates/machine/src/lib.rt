//! What a run's machine has and does: its values, frames, events and stops, and the meaning of a step and of a go.
#![tactic(auto)]

pub mod event;
pub mod frame;
pub mod gone;
pub mod held;
pub mod local_number;
pub mod refusal;
pub mod status;
pub mod value;
