// What a module can be asked.
ghost use Rattle.std.specs.Prelude.{◌≡◌, ◌+◌, ◌<◌, ◌≤◌, length, take, Decides, MatchOption};
ghost use Rattle.std.specs.Option.{IfSome};
ghost use Rattle.parts.specs.Content.{viewed};
ghost use Rattle.sensitivity.specs.Sensitive.{Sensitive};
ghost use Rattle.tables.specs.Tables.{words};
ghost use Rattle.module.specs.Modules.{said, frames, FirstLink, NoLink, SensitiveLink};

use crate::module::Module;
use parts::lists::Lists;
use sensitivity::{marked, next_link};
use tables::places::Span;

impl Module {
    // The module's lists, its memory size and its depth as written.
    pub fn lists(&self) -> Lists
        ensures { viewed result ≡ said self.now }
    {
        self.parts.lists()
    }

    // How many frames may stand. An image writes 0 for 16, and a module keeps what its image says.
    pub fn frames(&self) -> u32
        ensures value { result ≡ frames (said self.now).depth }
        ensures few { result ≤ 16 }
    {
        match self.parts.header().depth() {
            0 => 16,
            depth => depth,
        }
    }

    pub fn is_sensitive(&self, t: u32) -> bool
        ensures { Decides result (Sensitive (said self.now).types (said self.now).fields t) }
    {
        marked(&self.sensitive, t)
    }

    // Where the heap begins: behind the globals.
    #[tactic(auto, using(crate::proofs::Places::heap_there))]
    pub fn heap(&self) -> u32
        ensures { result ≡ words (said self.now).types (said self.now).globals }
    {
        self.places.heap
    }

    // Where a global lies.
    #[tactic(auto, using(crate::proofs::Places::low_there, crate::proofs::Places::high_there))]
    pub fn span(&self, global: u32) -> Option<Span>
        ensures { MatchOption result (length (said self.now).globals ≤ global) (λ s. (s.low ≡ words (said self.now).types (take global (said self.now).globals)) × (s.high ≡ words (said self.now).types (take (global + 1) (said self.now).globals))) }
    {
        // Not by `get` on the spans: there are more of them than globals.
        let g = global as usize;
        if g < self.lists().globals.len() {
            Some(self.places.spans[g])
        } else {
            None
        }
    }

    // The end of the first link from type `t` that leads on to void or function.
    pub fn sensitive_link(&self, t: u32) -> Option<u32>
        ensures link { MatchOption result (NoLink (said self.now) t) (λ j. SensitiveLink (said self.now) t j) }
        ensures first { IfSome result (λ j. FirstLink (said self.now) t j) }
    {
        next_link(&self.parts, &self.sensitive, t)
    }
}
