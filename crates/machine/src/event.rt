// What a made step tells.
ghost use Rattle.std.specs.Prelude.{◌≡◌, Some};
ghost use Rattle.machine.specs.Events.{decides, kind_number};
ghost use Rattle.machine.specs.Numbers.{event_text};

use std::fmt;

#[derive(Clone, Copy, PartialEq, Eq, Debug)]
pub enum EventKind {
    Other = 0,
    // A function was entered by a call, or through a pointer.
    Called = 1,
    CalledThrough = 2,
    Returned = 3,
    // The last frame returned.
    Ended = 4,
    // A branch was taken, 1, or not, 0.
    Branched = 5,
    // A pointer was moved by so many.
    Moved = 6,
    // So many were asked of the heap.
    Allocated = 7,
}

// By hand, as a clause reads `from_gives`.
impl From<EventKind> for u32 {
    ghost from_gives = { λ k n. n ≡ kind_number k };

    fn from(kind: EventKind) -> u32 {
        kind as u32
    }
}

impl EventKind {
    pub fn decides(self) -> bool
        ensures { result ≡ decides self }
    {
        matches!(
            self,
            EventKind::Branched | EventKind::Moved | EventKind::Allocated
        )
    }
}

#[derive(Clone, Copy, PartialEq, Eq, Debug)]
pub struct Event {
    pub kind: EventKind,
    pub word: u32,
}

pub const OTHER: Event = Event {
    kind: EventKind::Other,
    word: 0,
};

const _: () = prove!(OTHER.kind as u32 == EventKind::Other as u32);

const _: () = prove!(OTHER.word == 0);

impl fmt::Display for Event {
    ghost output = { λ e. Some (event_text e) };

    fn fmt<W: fmt::Write>(&self, f: &mut fmt::Formatter<W>) -> fmt::Result {
        let kind = u32::from(self.kind);
        write!(f, "{kind} {}", self.word)
    }
}
