// The first thing that is wrong with the records of an image.
ghost use Rattle.std.specs.Prelude.{◌≡◌, Some};
ghost use Rattle.rules.specs.Texts.{rule_text};
ghost use Rattle.rules.specs.declared.fault.RuleFault.TheVariants.{Meaningless};

use records::record::RecordFault;
use std::fmt;

#[derive(Clone, Copy, PartialEq, Eq, Debug)]
pub enum RuleFault {
    // A record means nothing.
    Meaningless(RecordFault),
    // A record names something that isn't there.
    Unnamed(RecordFault),
    // A record's types are wrong.
    Mistyped(RecordFault),
}

// By hand, as clauses read `from_gives`.
impl From<RecordFault> for RuleFault {
    ghost from_gives = { λ e r. r ≡ Meaningless e };

    fn from(e: RecordFault) -> RuleFault {
        RuleFault::Meaningless(e)
    }
}

impl fmt::Display for RuleFault {
    ghost output = { λ e. Some (rule_text e) };

    fn fmt<W: fmt::Write>(&self, f: &mut fmt::Formatter<W>) -> fmt::Result {
        match self {
            RuleFault::Meaningless(place) => write!(
                f,
                "an unknown kind or op, or a count or unused word out of range: {place}"
            ),
            RuleFault::Unnamed(place) => write!(
                f,
                "a number names nothing in its list or function: {place}"
            ),
            RuleFault::Mistyped(place) => write!(f, "a type rule is broken: {place}"),
        }
    }
}
