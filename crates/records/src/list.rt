// The six lists of an image.
ghost use Rattle.std.specs.Prelude.{◌≡◌, Some};
ghost use Rattle.records.specs.Lists.{list_name, list_number};

use std::fmt;

#[derive(Clone, Copy, PartialEq, Eq, Debug)]
pub enum ListOf {
    Types = 0,
    Fields = 1,
    Globals = 2,
    Locals = 3,
    Functions = 4,
    Code = 5,
}

// By hand, as a clause reads `from_gives`.
impl From<ListOf> for u32 {
    ghost from_gives = { λ l n. n ≡ list_number l };

    fn from(list: ListOf) -> u32 {
        list as u32
    }
}

impl fmt::Display for ListOf {
    ghost output = { λ l. Some (list_name l) };

    fn fmt<W: fmt::Write>(&self, f: &mut fmt::Formatter<W>) -> fmt::Result {
        match self {
            ListOf::Types => f.write_str("types"),
            ListOf::Fields => f.write_str("fields"),
            ListOf::Globals => f.write_str("globals"),
            ListOf::Locals => f.write_str("locals"),
            ListOf::Functions => f.write_str("functions"),
            ListOf::Code => f.write_str("code"),
        }
    }
}
