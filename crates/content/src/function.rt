// A record of the list of functions: its ranges of instructions and of locals.
ghost use Rattle.content.specs.Records.{function_from, function_words};
ghost use Rattle.content.specs.inside.Faithful.{function_faithful};
ghost use Rattle.std.proofs.Common.{rules};

use records::record::Record;

#[derive(Clone, Copy, PartialEq, Eq)]
pub struct Function {
    pub first: u32,
    pub count: u32,
    pub first_local: u32,
    pub locals: u32,
}

impl Record<4> for Function {
    ghost meant = { function_from };

    ghost spelt = { function_words };

    ghost narrow = { Prim.search rules };

    ghost long = { Prim.search rules };

    ghost faithful = { function_faithful };

    fn read(words: &[u32; 4]) -> Option<Function> {
        match *words {
            [first, count @ 1.., first_local, locals @ ..=8] => Some(Function {
                first,
                count,
                first_local,
                locals,
            }),
            _ => None,
        }
    }

    fn write(self) -> [u32; 4] {
        [self.first, self.count, self.first_local, self.locals]
    }
}
