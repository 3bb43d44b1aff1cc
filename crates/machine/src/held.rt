// What a local holds, with its word at a fixed place.
ghost use Rattle.std.specs.Prelude.{◌≡◌};
ghost use Rattle.machine.specs.Values.{word};

use crate::value::Value;
use std::marker::Model;
use values::bounds::Bounds;
use values::marked::Marked;

// Eight bytes, of which a step reads the word alone more often than not.
#[derive(Clone, Copy)]
pub struct Held {
    word: u32,
    // Of data the bounds, `low` and the last word within; else `low` is 1 for plain and 2 for code, and `last` is 0.
    low: u16,
    last: u16,
}

impl Model for Held {
    ghost use Rattle.machine.specs.declared.value.Value.{Value as Meant};

    ghost Value = { Meant };

    ghost use Rattle.machine.specs.inside.Holding.{valued, unvalued, unvalued_valued, Tidy};

    ghost view = { valued };

    ghost invariant = { λ a. Tidy a.low a.last };

    ghost inverse = { unvalued };

    ghost inverse_ok = { unvalued_valued };
}

impl Held {
    #[tactic(auto, using(crate::proofs::Keeping::told_data, crate::proofs::Keeping::told_plain, crate::proofs::Keeping::told_code))]
    pub fn of(value: Value) -> Held
        ensures { result ≡ value }
    {
        match value {
            Value::Plain(word) => Held {
                word,
                low: 1,
                last: 0,
            },
            Value::Marked(Marked::Code(word)) => Held {
                word,
                low: 2,
                last: 0,
            },
            Value::Marked(Marked::Data(word, bounds)) => Held {
                word,
                low: bounds.low() as u16,
                last: (bounds.high() - 1) as u16,
            },
        }
    }

    #[tactic(auto, using(crate::proofs::Keeping::seen_data, crate::proofs::Keeping::seen_plain, crate::proofs::Keeping::seen_code))]
    pub fn value(self) -> Value
        ensures { result ≡ self }
    {
        if self.low <= self.last {
            Value::data(self.word, self.low as u32, self.last as u32 + 1)
        } else if self.low == 1 {
            Value::Plain(self.word)
        } else {
            Value::Marked(Marked::Code(self.word))
        }
    }

    #[tactic(auto, using(crate::proofs::Keeping::word_valued))]
    pub fn word(self) -> u32
        ensures { result ≡ word self }
    {
        self.word
    }
}
