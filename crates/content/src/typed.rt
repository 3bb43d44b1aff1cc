// A record of the list of fields or of locals: the number of its type.
ghost use Rattle.content.specs.Records.{typed_from, typed_words};
ghost use Rattle.content.specs.inside.Faithful.{typed_faithful};
ghost use Rattle.std.proofs.Common.{rules};

use records::record::Record;

#[derive(Clone, Copy, PartialEq, Eq)]
pub struct Typed {
    pub kind: u32,
}

impl Record<1> for Typed {
    ghost meant = { typed_from };

    ghost spelt = { typed_words };

    ghost narrow = { Prim.search rules };

    ghost long = { Prim.search rules };

    ghost faithful = { typed_faithful };

    fn read(words: &[u32; 1]) -> Option<Typed> {
        let [kind] = *words;
        Some(Typed { kind })
    }

    fn write(self) -> [u32; 1] {
        [self.kind]
    }
}
