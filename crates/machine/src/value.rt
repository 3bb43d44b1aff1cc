// What a local holds.
ghost use Rattle.std.specs.Prelude.{◌≡◌, Some};
ghost use Rattle.machine.specs.Values.{word, value_text, data_in, bounds_of};

use std::fmt;
use values::bounds::Bounds;
use values::marked::Marked;

// A word, with a mark or plain.
#[derive(Clone, Copy, PartialEq, Eq, Debug)]
pub enum Value {
    Plain(u32),
    Marked(Marked),
}

impl Value {
    // Data at this word; plain where these are no bounds.
    #[tactic(auto, using(crate::proofs::Bounding::bounds_same, crate::proofs::Bounding::unbounded))]
    pub fn data(word: u32, low: u32, high: u32) -> Value
        ensures { result ≡ data_in (bounds_of low high) word }
    {
        match Bounds::new(low, high) {
            Some(bounds) => Value::Marked(Marked::Data(word, bounds)),
            None => Value::Plain(word),
        }
    }

    pub fn word(self) -> u32
        ensures { result ≡ word self }
    {
        match self {
            Value::Plain(word) => word,
            Value::Marked(marked) => match marked {
                Marked::Code(function) => function,
                Marked::Data(word, _) => word,
            },
        }
    }
}

impl fmt::Display for Value {
    ghost output = { λ v. Some (value_text v) };

    fn fmt<W: fmt::Write>(&self, f: &mut fmt::Formatter<W>) -> fmt::Result {
        match self {
            Value::Plain(word) => write!(f, "p:{word}"),
            Value::Marked(marked) => write!(f, "{marked}"),
        }
    }
}
