// A record of the list of globals: a type, repeated.
ghost use Rattle.content.specs.Records.{global_from, global_words};
ghost use Rattle.content.specs.inside.Faithful.{global_faithful};
ghost use Rattle.std.proofs.Common.{rules};

use records::record::Record;

#[derive(Clone, Copy, PartialEq, Eq)]
pub struct Global {
    pub kind: u32,
    pub count: u32,
}

impl Record<2> for Global {
    ghost meant = { global_from };

    ghost spelt = { global_words };

    ghost narrow = { Prim.search rules };

    ghost long = { Prim.search rules };

    ghost faithful = { global_faithful };

    fn read(words: &[u32; 2]) -> Option<Global> {
        match *words {
            [kind, count @ 1..=4096] => Some(Global { kind, count }),
            _ => None,
        }
    }

    fn write(self) -> [u32; 2] {
        [self.kind, self.count]
    }
}
