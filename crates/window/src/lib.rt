//! The window: a part of the addresses of a store below, counted from 0.
#![tactic(auto)]

ghost use Rattle.std.specs.Prelude.{◌≡◌, ◌+◌, true, false, is_ok, if◌then◌else◌, Some, None};
ghost use Rattle.stores.specs.Meaning.{Dropped, Put};
ghost use Rattle.window.specs.Window.{WindowKept, shows, window_entry, window_taken};
ghost use Rattle.window.specs.inside.Laws.{window_held, window_lasting};

use stores::store::{NotTaken, Store};

#[derive(Drop)]
pub struct Window<S> {
    base: u32,
    len: u32,
    below: S,
}

impl<S> Window<S> {
    pub fn new(base: u32, len: u32, below: S) -> Window<S>
        ensures base { result.base ≡ base }
        ensures len { result.len ≡ len }
        ensures below { result.below ≡ below }
    {
        Window { base, len, below }
    }

    // Takes the window apart, which gives back the store below.
    pub fn into_below(self) -> S
        ensures { result ≡ self.below }
    {
        let Window { below, .. } = self;
        below
    }

    // The address below, if this one is shown.
    fn place(&self, a: u32) -> Option<u32>
        ensures { result ≡ (if shows self.now a then Some (self.now.base + a) else None) }
    {
        if a < self.len {
            self.base.checked_add(a)
        } else {
            None
        }
    }
}

impl<S: Store> Store for Window<S> {
    type Entry = S::Entry;

    ghost entry = { λ w. window_entry S.Store.entry w };

    ghost taken = { λ w. window_taken S.Store.taken w };

    ghost held = { λ w. window_held S.Store.entry S.Store.taken S.Store.held w };

    ghost kept = { λ w x. WindowKept S.Store.kept S.Store.entry w x };

    ghost lasting = { window_lasting S.Store.kept S.Store.lasting S.Store.entry };

    fn get(&self, a: u32) -> Option<S::Entry> {
        self.below.get(self.place(a)?)
    }

    fn takes(&self, a: u32) -> bool {
        self.place(a).is_some_and(|at| self.below.takes(at))
    }

    // Besides what every store promises: it is a put below.
    fn put(&mut self, a: u32, v: S::Entry) -> Result<(), NotTaken>
        ensures answer { is_ok result ≡ window_taken S.taken self.old a }
        ensures refused { is_ok result ≡ false → self.new ≡ self.old }
        ensures made { is_ok result ≡ true → Put (window_entry S.entry self.old) (window_entry S.entry self.new) (window_taken S.taken self.old) (window_taken S.taken self.new) a v }
        ensures kept { WindowKept S.kept S.entry self.old self.new }
        ensures below { is_ok result ≡ true → Put (S.entry self.old.below) (S.entry self.new.below) (S.taken self.old.below) (S.taken self.new.below) (self.old.base + a) v }
    {
        let at = self.place(a).ok_or(NotTaken)?;
        self.below.put(at, v)
    }

    // Besides what every store promises: it is a drop below, or nothing at all.
    fn drop(&mut self, a: u32)
        ensures dropped { Dropped (window_entry S.entry self.old) (window_entry S.entry self.new) (window_taken S.taken self.old) (window_taken S.taken self.new) a }
        ensures kept { WindowKept S.kept S.entry self.old self.new }
        ensures below { shows self.old a ≡ true → Dropped (S.entry self.old.below) (S.entry self.new.below) (S.taken self.old.below) (S.taken self.new.below) (self.old.base + a) }
        ensures hidden { shows self.old a ≡ false → self.new ≡ self.old }
    {
        if let Some(at) = self.place(a) {
            self.below.drop(at);
        }
    }
}
