// Why a step or a go is refused, and why a step stops.
ghost use Rattle.std.specs.Prelude.{◌≡◌};
ghost use Rattle.machine.specs.Numbers.{not_ready_number, stop_number, refusal_number};

// A step or a go is refused: nothing changes.
#[derive(Clone, Copy, PartialEq, Eq, Debug)]
pub enum NotReady {
    // The run has ended or stopped before.
    Over = 11,
    // The memory hasn't as many words as the module says.
    Memory = 12,
}

impl From<NotReady> for u32 {
    ghost from_gives = { λ n k. k ≡ not_ready_number n };

    fn from(not_ready: NotReady) -> u32 {
        not_ready as u32
    }
}

// A step stops: the run goes no further, and nothing else changes.
#[derive(Clone, Copy, PartialEq, Eq, Debug)]
pub enum Stop {
    // A plain address isn't below the memory size.
    Address = 21,
    // The place isn't data.
    NotData = 22,
    // Outside the bounds.
    Outside = 23,
    // The called value isn't code.
    NotCode = 24,
    // As many frames stand as may.
    StackFull = 25,
    // Nothing was asked, or more words than the heap has left.
    HeapFull = 26,
    // The store doesn't take the address.
    NotTaken = 27,
}

impl From<Stop> for u32 {
    ghost from_gives = { λ s k. k ≡ stop_number s };

    fn from(stop: Stop) -> u32 {
        stop as u32
    }
}

// Why a step isn't made.
#[derive(Clone, Copy, PartialEq, Eq, Debug)]
pub enum Refusal {
    NotReady(NotReady),
    Stopped(Stop),
}

impl From<NotReady> for Refusal {
    ghost use Rattle.machine.specs.declared.refusal.Refusal.TheVariants as refusal;

    ghost from_gives = { λ n r. r ≡ refusal.NotReady n };

    fn from(not_ready: NotReady) -> Refusal {
        Refusal::NotReady(not_ready)
    }
}

impl From<Stop> for Refusal {
    ghost use Rattle.machine.specs.declared.refusal.Refusal.TheVariants as refusal;

    ghost from_gives = { λ s r. r ≡ refusal.Stopped s };

    fn from(stop: Stop) -> Refusal {
        Refusal::Stopped(stop)
    }
}

impl Refusal {
    pub fn number(self) -> u32
        ensures { result ≡ refusal_number self }
    {
        match self {
            Refusal::NotReady(not_ready) => not_ready.into(),
            Refusal::Stopped(stop) => stop.into(),
        }
    }
}
