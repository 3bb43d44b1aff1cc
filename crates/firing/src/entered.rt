// What the events of a run say.
use crate::segment::Function;
use machine::event::{Event, EventKind};
use std::fmt;

// A function was entered, in one of two ways.
#[derive(Clone, Copy, PartialEq, Eq, Debug)]
pub(crate) enum Entered {
    ByCall(Function),
    ThroughPointer(Function),
}

impl Entered {
    // What an event says of it; nothing where none was entered.
    pub(crate) fn of(event: &Event) -> Option<Entered> {
        match event.kind {
            EventKind::Called => Some(Entered::ByCall(Function(event.word))),
            EventKind::CalledThrough => Some(Entered::ThroughPointer(Function(event.word))),
            _ => None,
        }
    }

    pub(crate) fn function(self) -> Function {
        match self {
            Entered::ByCall(function) | Entered::ThroughPointer(function) => function,
        }
    }
}

impl fmt::Display for Entered {
    fn fmt<W: fmt::Write>(&self, f: &mut fmt::Formatter<W>) -> fmt::Result {
        match self {
            Entered::ByCall(function) => write!(f, "{function} by a call"),
            Entered::ThroughPointer(function) => write!(f, "{function} through a pointer"),
        }
    }
}
