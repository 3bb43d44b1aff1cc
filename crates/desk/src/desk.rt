// What a script has made so far.
ghost use Rattle.std.specs.Prelude.{◌≡◌, [], ◌∷◌, None, vec_items};
ghost use Rattle.words.specs.Words.{words};
ghost use Rattle.image_lines.specs.Asks.{asked};
ghost use Rattle.module.specs.Modules.{fresh, said};
ghost use Rattle.desk.specs.Heard.{ByRuns, ByStores, Heard, OfModule, unread};

use crate::doing::{list_sensitive, read_image, write_image};
use crate::told::Told;
use board::board::Board;
use image_lines::line::{ImageLine, asked as ask_module};
use replay::build::Loose;
use replay::obey::obey;
use run_lines::line::asked as ask_run;
use script::line::asked as ask_store;
use std::alloc::{AllocError, Global};
use stores::store::Store;
use words::fault::Fault;
use words::words::Words;

#[derive(Drop)]
pub struct Desk {
    board: Board<Loose>,
}

// What is told of a line that no table has, by its first word.
fn unread(number: u64, word: &[u8], rest: &[u8]) -> Told
    ensures { result ≡ unread number (word.now ∷ words rest.now) }
{
    if word.starts_with(b"#") {
        Told::Silent
    } else {
        Told::Faulty(number, Fault::Word)
    }
}

impl Desk {
    // The module before any reading, no store, a memory of no words, and no run.
    pub fn new(heap: Global) -> Desk
        ensures store { result.board.loose ≡ None }
        ensures module { said result.board.module ≡ fresh }
        ensures memory { vec_items result.board.memory ≡ [] }
        ensures run { result.board.run ≡ None }
    {
        Desk {
            board: Board::new(heap),
        }
    }

    fn tell(&mut self, heap: Global, line: ImageLine) -> Result<Told, AllocError>
        ensures { OfModule (asked line.entry) self.old.board result self.new.board }
    {
        match line {
            ImageLine::Image(digits) => read_image(heap, &mut self.board.module, digits),
            ImageLine::Write(len) => write_image(heap, &self.board.module, len),
            ImageLine::Sensitive => list_sensitive(heap, &self.board.module),
        }
    }

    fn reply_of_store(
        &mut self,
        heap: Global,
        number: u64,
        verb: &[u8],
        rest: &[u8],
    ) -> Result<Told, AllocError>
        ensures { ByStores ⟦<Loose as Store>⟧.entry ⟦<Loose as Store>⟧.taken ⟦<Loose as Store>⟧.kept self.old.board number result self.new.board (verb.now ∷ words rest.now) }
    {
        match ask_store(verb, rest) {
            Some(Ok(command)) => Ok(Told::Answered(obey(&mut self.board.loose, heap, command)?)),
            Some(Err(fault)) => Ok(Told::Faulty(number, fault)),
            None => Ok(unread(number, verb, rest)),
        }
    }

    fn reply_of_run(
        &mut self,
        heap: Global,
        number: u64,
        verb: &[u8],
        rest: &[u8],
    ) -> Result<Told, AllocError>
        ensures { ByRuns ⟦<Loose as Store>⟧.entry ⟦<Loose as Store>⟧.taken ⟦<Loose as Store>⟧.kept self.old.board number result self.new.board (verb.now ∷ words rest.now) }
    {
        match ask_run(verb, rest) {
            Some(Ok(asked)) => Ok(Told::Ran(self.board.run(heap, asked)?)),
            Some(Err(fault)) => Ok(Told::Faulty(number, fault)),
            None => self.reply_of_store(heap, number, verb, rest),
        }
    }

    fn reply_of_module(
        &mut self,
        heap: Global,
        number: u64,
        verb: &[u8],
        rest: &[u8],
    ) -> Result<Told, AllocError>
        ensures { Heard ⟦<Loose as Store>⟧.entry ⟦<Loose as Store>⟧.taken ⟦<Loose as Store>⟧.kept self.old.board number result self.new.board (verb.now ∷ words rest.now) }
    {
        match ask_module(verb, rest) {
            Some(Ok(asked)) => self.tell(heap, asked),
            Some(Err(fault)) => Ok(Told::Faulty(number, fault)),
            None => self.reply_of_run(heap, number, verb, rest),
        }
    }

    // Does what the line asks for. Fails only for want of memory, and then changes nothing.
    #[tactic(auto, unfolding(words::specs::Forms::read))]
    pub fn reply(&mut self, heap: Global, number: u64, line: &[u8]) -> Result<Told, AllocError>
        ensures { Heard ⟦<Loose as Store>⟧.entry ⟦<Loose as Store>⟧.taken ⟦<Loose as Store>⟧.kept self.old.board number result self.new.board (words line.now) }
    {
        // The first word is cut once, and each table is asked for it.
        let mut words = Words::of(line);
        match words.next() {
            Some(verb) => self.reply_of_module(heap, number, verb, words.rest()),
            None => Ok(Told::Silent),
        }
    }
}
