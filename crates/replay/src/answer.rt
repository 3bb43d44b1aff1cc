// What a transcript tells of a line about stores.
ghost use Rattle.std.specs.Prelude.{Some};
ghost use Rattle.replay.specs.Answers.{shown_answer};

use std::fmt;
use stores::store::NotTaken;
use values::marked::Marked;

// What a store answered, or what was done in its place.
#[derive(Clone, Copy)]
pub enum Answer {
    // A new store stands.
    Made,
    Put(Result<(), NotTaken>),
    Dropped,
    // What is held at the address.
    Held(Option<Marked>),
    // Whether the address is taken.
    Taken(bool),
    // No store was made that could be asked.
    NoStore,
}

impl fmt::Display for Answer {
    ghost output = { λ a. Some (shown_answer a) };

    fn fmt<W: fmt::Write>(&self, f: &mut fmt::Formatter<W>) -> fmt::Result {
        match *self {
            Answer::Made => f.write_str("store made"),
            Answer::Put(Ok(())) => f.write_str("put"),
            Answer::Put(Err(refused)) => write!(f, "{refused}"),
            Answer::Dropped => f.write_str("dropped"),
            Answer::Held(Some(value)) => write!(f, "{value}"),
            Answer::Held(None) => f.write_str("nothing"),
            Answer::Taken(true) => f.write_str("yes"),
            Answer::Taken(false) => f.write_str("no"),
            Answer::NoStore => f.write_str("no store"),
        }
    }
}
