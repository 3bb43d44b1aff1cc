// The first thing that is wrong with an image, and how it is told.
ghost use Rattle.std.specs.Prelude.{◌≡◌, Some, None};
ghost use Rattle.module.specs.declared.fault.ModuleFault.TheVariants as fault;
ghost use Rattle.module.specs.Refusals.{refusal_of, too_short};
ghost use Rattle.module.specs.Texts.{fault_text, refusal_text};

use header::fault::HeaderFault;
use records::record::RecordFault;
use rules::fault::RuleFault;
use std::fmt;
use writing::TooShort;

#[derive(Clone, Copy, PartialEq, Eq, Debug)]
pub enum ModuleFault {
    Header(HeaderFault),
    Rule(RuleFault),
    // The globals take more words than the memory has.
    Globals,
}

// By hand, as clauses read `from_gives`; so are the two below.
impl From<HeaderFault> for ModuleFault {
    ghost from_gives = { λ e r. r ≡ fault.Header e };

    fn from(e: HeaderFault) -> ModuleFault {
        ModuleFault::Header(e)
    }
}

impl From<RuleFault> for ModuleFault {
    ghost from_gives = { λ e r. r ≡ fault.Rule e };

    fn from(e: RuleFault) -> ModuleFault {
        ModuleFault::Rule(e)
    }
}

// The number of a refusal, which C and the transcript are handed, and the record that it names, if it names one.
#[derive(Clone, Copy, PartialEq, Eq, Debug)]
pub struct Refusal {
    pub number: u32,
    pub place: Option<RecordFault>,
}

impl Refusal {
    fn plain(number: u32) -> Refusal
        ensures { result ≡ record { number = number; place = None } }
    {
        Refusal {
            number,
            place: None,
        }
    }

    fn at(number: u32, place: RecordFault) -> Refusal
        ensures { result ≡ record { number = number; place = Some place } }
    {
        Refusal {
            number,
            place: Some(place),
        }
    }
}

impl From<TooShort> for Refusal {
    ghost from_gives = { λ _ r. r ≡ too_short };

    fn from(_short: TooShort) -> Refusal {
        Refusal::plain(9)
    }
}

impl fmt::Display for Refusal {
    ghost output = { λ r. Some (refusal_text r) };

    fn fmt<W: fmt::Write>(&self, f: &mut fmt::Formatter<W>) -> fmt::Result {
        let number = self.number;
        match self.place {
            Some(RecordFault { list, record }) => {
                let list = u32::from(list);
                write!(f, "{number} {list} {record}")
            }
            // As a transcript writes it.
            None => write!(f, "{number} 0 0"),
        }
    }
}

impl ModuleFault {
    pub fn refusal(self) -> Refusal
        ensures { result ≡ refusal_of self }
    {
        match self {
            ModuleFault::Header(HeaderFault::Short) => Refusal::plain(1),
            ModuleFault::Header(HeaderFault::Version) => Refusal::plain(2),
            ModuleFault::Header(HeaderFault::Range) => Refusal::plain(3),
            ModuleFault::Header(HeaderFault::Layout) => Refusal::plain(4),
            ModuleFault::Rule(RuleFault::Meaningless(place)) => Refusal::at(5, place),
            ModuleFault::Rule(RuleFault::Unnamed(place)) => Refusal::at(6, place),
            ModuleFault::Rule(RuleFault::Mistyped(place)) => Refusal::at(7, place),
            ModuleFault::Globals => Refusal::plain(8),
        }
    }
}

impl fmt::Display for ModuleFault {
    ghost output = { λ e. Some (fault_text e) };

    fn fmt<W: fmt::Write>(&self, f: &mut fmt::Formatter<W>) -> fmt::Result {
        let number = self.refusal().number;
        match self {
            ModuleFault::Header(fault) => write!(f, "{number}: {fault}"),
            ModuleFault::Rule(fault) => write!(f, "{number}: {fault}"),
            ModuleFault::Globals => write!(
                f,
                "{number}: the globals take more words than the memory has"
            ),
        }
    }
}
