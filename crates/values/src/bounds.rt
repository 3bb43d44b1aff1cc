// The bounds that a pointer may be used within.
ghost use Rattle.std.specs.Prelude.{◌≡◌, ◌<◌, ◌≤◌, MatchOption, Some};

use std::fmt;

// The words from `low` up to and without `high`: one at least, and all in the largest memory.
#[derive(Clone, Copy, PartialEq, Eq, Debug)]
pub struct Bounds {
    low: u32,
    high: u32,
    ghost some: { low < high },
    ghost inside: { high ≤ 65536 },
}

impl Bounds {
    // Nothing where `low` isn't below `high`, or `high` is over 65,536.
    pub fn new(low: u32, high: u32) -> Option<Bounds>
        ensures { MatchOption result (low < high → high ≤ 65536 → ⊥) (λ b. (b.low ≡ low) × (b.high ≡ high)) }
    {
        if low < high && high <= 65_536 {
            Some(Bounds { low, high })
        } else {
            None
        }
    }

    pub fn low(self) -> u32
        ensures { result ≡ self.low }
    {
        self.low
    }

    pub fn high(self) -> u32
        ensures { result ≡ self.high }
    {
        self.high
    }
}

impl fmt::Display for Bounds {
    ghost use Rattle.values.specs.Written.{written_bounds};

    ghost output = { λ b. Some (written_bounds b) };

    fn fmt<W: fmt::Write>(&self, f: &mut fmt::Formatter<W>) -> fmt::Result {
        write!(f, "{}:{}", self.low, self.high)
    }
}
