// The lines about the memory.
ghost use Rattle.std.specs.Prelude.{Ok};
ghost use Rattle.run_lines.specs.declared.line.RunLine.TheVariants as line;
ghost use Rattle.board.specs.Runs.{Ran};

use crate::board::Board;
use crate::digest::digest_of;
use crate::report::Report;
use std::alloc::{AllocError, Global};
use stores::store::Store;
use values::marked::Marked;

impl<S: Store<Entry = Marked>> Board<S> {
    // So many words of 0 in place of the memory. Fails only for want of memory, and then changes nothing.
    pub(crate) fn resize(&mut self, heap: Global, words: u32) -> Result<Report, AllocError>
        ensures { Ran S.entry S.taken S.kept self.old result self.new (line.Memory words) }
    {
        self.memory = vec![in heap; 0; words as usize]?;
        Ok(Report::Sized(words))
    }

    // The panel writes a word.
    pub(crate) fn poke(&mut self, a: u32, word: u32) -> Report
        ensures { Ran S.entry S.taken S.kept self.old (Ok result) self.new (line.Poke a word) }
    {
        match self.memory.get_mut(a as usize) {
            Some(place) => {
                *place = word;
                Report::Poked(a, word)
            }
            None => Report::Outside,
        }
    }

    pub(crate) fn peek(&self, a: u32) -> Report
        ensures { Ran S.entry S.taken S.kept self.now (Ok result) self.now (line.Peek a) }
    {
        match self.memory.get(a as usize) {
            Some(word) => Report::Word(*word),
            None => Report::Outside,
        }
    }

    pub(crate) fn digest(&self) -> Report
        ensures { Ran S.entry S.taken S.kept self.now (Ok result) self.now line.Digest }
    {
        Report::Digest(digest_of(self.memory.as_slice()))
    }
}
