// The values that a safe store keeps.
ghost use Rattle.std.specs.Prelude.{Some};
ghost use Rattle.values.specs.Written.{written};

use crate::bounds::Bounds;
use std::fmt;

// A word with a mark.
#[derive(Clone, Copy, PartialEq, Eq, Debug)]
pub enum Marked {
    // A function's number.
    Code(u32),
    // An address, with the bounds that its pointer was made with.
    Data(u32, Bounds),
}

impl fmt::Display for Marked {
    ghost output = { λ v. Some (written v) };

    fn fmt<W: fmt::Write>(&self, f: &mut fmt::Formatter<W>) -> fmt::Result {
        match *self {
            Marked::Code(function) => write!(f, "c:{function}"),
            Marked::Data(word, bounds) => write!(f, "d:{word}:{bounds}"),
        }
    }
}
