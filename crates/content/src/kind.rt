// A record of the list of types: what kind of type it is.
ghost use Rattle.content.specs.Records.{kind_from, kind_words};
ghost use Rattle.content.specs.inside.Faithful.{kind_faithful};
ghost use Rattle.std.proofs.Common.{rules};

use records::record::Record;

#[derive(Clone, Copy, PartialEq, Eq)]
pub enum Kind {
    Number,
    Void,
    Function,
    Pointer { to: u32 },
    Fields { first: u32, count: u32 },
}

impl Record<3> for Kind {
    ghost meant = { kind_from };

    ghost spelt = { kind_words };

    ghost narrow = { Prim.search rules };

    ghost long = { Prim.search rules };

    ghost faithful = { kind_faithful };

    fn read(words: &[u32; 3]) -> Option<Kind> {
        match *words {
            [0, 0, 0] => Some(Kind::Number),
            [1, 0, 0] => Some(Kind::Void),
            [2, 0, 0] => Some(Kind::Function),
            [3, to, 0] => Some(Kind::Pointer { to }),
            [4, first, count @ 1..=64] => Some(Kind::Fields { first, count }),
            _ => None,
        }
    }

    fn write(self) -> [u32; 3] {
        match self {
            Kind::Number => [0, 0, 0],
            Kind::Void => [1, 0, 0],
            Kind::Function => [2, 0, 0],
            Kind::Pointer { to } => [3, to, 0],
            Kind::Fields { first, count } => [4, first, count],
        }
    }
}
