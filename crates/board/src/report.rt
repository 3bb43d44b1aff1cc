// What a transcript gets for a line about runs.
ghost use Rattle.std.specs.Prelude.{Some};
ghost use Rattle.board.specs.Shown.{shown};

use crate::listed::EventLines;
use machine::event::Event;
use machine::gone::{Came, Gone};
use machine::refusal::{NotReady, Refusal};
use machine::status::Status;
use std::fmt;

#[derive(Drop)]
pub enum Report {
    Begun,
    // No loose store stood that a run could have begun on.
    NoStore,
    NoRun,
    // How many words the memory has.
    Sized(u32),
    // The address, and the word that stands there.
    Poked(u32, u32),
    Word(u32),
    // The memory hasn't the address.
    Outside,
    Digest(u32),
    Stepped(Result<Event, Refusal>),
    // A go, with the events of the steps that it made; refused, it made none, and they aren't told.
    Went(Result<Gone, NotReady>, Vec<Event>),
    // The lines that tell of frames or entries.
    Lines(String),
    Stands(Status),
}

impl fmt::Display for Report {
    ghost output = { λ r. Some (shown r) };

    fn fmt<W: fmt::Write>(&self, f: &mut fmt::Formatter<W>) -> fmt::Result {
        match self {
            Report::Begun => f.write_str("begun\n"),
            Report::NoStore => f.write_str("no store\n"),
            Report::NoRun => f.write_str("no run\n"),
            Report::Sized(words) => write!(f, "memory {words}\n"),
            Report::Poked(a, word) => write!(f, "poked {a} {word}\n"),
            Report::Word(word) => write!(f, "word {word}\n"),
            Report::Outside => f.write_str("outside\n"),
            Report::Digest(sum) => write!(f, "digest {sum}\n"),
            Report::Stepped(Ok(event)) => write!(f, "event {event}\n"),
            Report::Stepped(Err(Refusal::Stopped(stop))) => {
                let number = u32::from(*stop);
                write!(f, "stopped {number}\n")
            }
            Report::Stepped(Err(Refusal::NotReady(why))) | Report::Went(Err(why), _) => {
                let number = u32::from(*why);
                write!(f, "refused {number}\n")
            }
            Report::Went(Ok(gone), events) => {
                let made = gone.made;
                let lines = EventLines(events.as_slice());
                match gone.came {
                    Came::Full => write!(f, "made {made} full\n{lines}"),
                    Came::Ended => write!(f, "made {made} ended\n{lines}"),
                    Came::Stopped(stop) => {
                        let number = u32::from(stop);
                        write!(f, "made {made} stopped {number}\n{lines}")
                    }
                }
            }
            Report::Lines(lines) => write!(f, "{lines}"),
            Report::Stands(status) => write!(f, "{status}\n"),
        }
    }
}
