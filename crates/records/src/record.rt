// What a record's words mean, said once for reading and for writing.
ghost use Rattle.std.specs.Prelude.{◌≡◌, ℕ, ◌≤◌, List, length, Some, Option};
ghost use Rattle.records.specs.Lists.{place_text};

use crate::list::ListOf;
use std::fmt;

// The place of a record that is wrong: its list, and the record's number there.
#[derive(Clone, Copy, PartialEq, Eq, Debug)]
pub struct RecordFault {
    pub list: ListOf,
    pub record: usize,
}

impl fmt::Display for RecordFault {
    ghost output = { λ f. Some (place_text f) };

    fn fmt<W: fmt::Write>(&self, f: &mut fmt::Formatter<W>) -> fmt::Result {
        let RecordFault { list, record } = *self;
        write!(f, "{list}, record {record}")
    }
}

// A record that takes N words of an image.
pub trait Record<const N: usize>: Copy {
    // What N words mean.
    ghost meant: { List ℕ → Option Self };

    // A record's words.
    ghost spelt: { Self → List ℕ };

    fn read(words: &[u32; N]) -> Option<Self>
        ensures { result ≡ meant words.now };

    fn write(self) -> [u32; N]
        ensures { result ≡ spelt self };

    ghost narrow: { N ≤ 4 };

    ghost long: { (r : Self) → length (spelt r) ≡ N };

    ghost faithful: { (ws : List ℕ) (r : Self) → length ws ≡ N → meant ws ≡ Some r → spelt r ≡ ws };
}
