// What is wrong with a line.
ghost use Rattle.std.specs.Prelude.{Some};
ghost use Rattle.words.specs.Reasons.{reason};

use std::fmt;

#[derive(Clone, Copy, PartialEq, Eq, Debug)]
pub enum Fault {
    // A word that the script doesn't know at this place.
    Word,
    // A word too few or too many.
    Count,
    // A word that is no decimal number.
    Number,
    // A number beyond its limit.
    Large,
    // Low isn't below high, or high is over 65,536.
    Bounds,
    // A word that isn't bytes, two lower-case hex digits each.
    Hex,
}

impl fmt::Display for Fault {
    ghost output = { λ f. Some (reason f) };

    // The reason that a transcript gives.
    fn fmt<W: fmt::Write>(&self, f: &mut fmt::Formatter<W>) -> fmt::Result {
        f.write_str(match self {
            Fault::Word => "unknown word",
            Fault::Count => "wrong count of words",
            Fault::Number => "not a number",
            Fault::Large => "number beyond its limit",
            Fault::Bounds => "low must be below high, and high at most 65536",
            Fault::Hex => "not bytes in hex",
        })
    }
}
