// What a go answers.
use crate::refusal::Stop;

// Why a go made no more steps.
#[derive(Clone, Copy, PartialEq, Eq, Debug)]
pub enum Came {
    // The list of events is full.
    Full,
    Ended,
    Stopped(Stop),
}

#[derive(Clone, Copy, PartialEq, Eq, Debug)]
pub struct Gone {
    // How many steps were made.
    pub made: usize,
    pub came: Came,
}
