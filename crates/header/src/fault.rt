// What can be wrong in front of the lists.
ghost use Rattle.std.specs.Prelude.{Some};
ghost use Rattle.header.specs.Texts.{header_text};

use std::fmt;

#[derive(Clone, Copy, PartialEq, Eq, Debug)]
pub enum HeaderFault {
    Short,
    Version,
    Range,
    Layout,
}

impl fmt::Display for HeaderFault {
    ghost output = { λ f. Some (header_text f) };

    fn fmt<W: fmt::Write>(&self, f: &mut fmt::Formatter<W>) -> fmt::Result {
        match self {
            HeaderFault::Short => f.write_str("the image has under 60 bytes"),
            HeaderFault::Version => f.write_str("the version isn't 1"),
            HeaderFault::Range => f.write_str(
                "the memory size, the depth or a count of records is out of range",
            ),
            HeaderFault::Layout => f.write_str(
                "a list or the image's end isn't where the lists put it",
            ),
        }
    }
}
