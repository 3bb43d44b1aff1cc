// What a store is: its meaning, its calls and their laws.
ghost use Rattle.std.specs.Prelude.{◌≡◌, ℕ, Bool, true, false, is_ok, codes, Some, Option};
ghost use Rattle.stores.specs.Meaning.{Dropped, HeldTaken, Lasting, Put};

use std::error::Error;
use std::fmt;

// The refusal of a put: the store doesn't take the address.
#[derive(Clone, Copy, PartialEq, Eq, Debug)]
pub struct NotTaken;

impl fmt::Display for NotTaken {
    ghost output = { λ _. Some (codes "not taken") };

    fn fmt<W: fmt::Write>(&self, f: &mut fmt::Formatter<W>) -> fmt::Result {
        f.write_str("not taken")
    }
}

impl Error for NotTaken {}

// Anything with this meaning that keeps these laws.
pub trait Store {
    // The kind of value that it keeps.
    type Entry: Copy;

    // What is held at each address.
    ghost entry: { Self → ℕ → Option Self.Entry };

    // Whether it takes the address.
    ghost taken: { Self → ℕ → Bool };

    // The law that held addresses are taken.
    ghost held: { (s : Self) → HeldTaken (entry s) (taken s) };

    // What its make keeps over a call besides, from the store before to the store after.
    ghost kept: { Self → Self → Type 0 };

    // That this is so over any number of calls, none among them.
    ghost lasting: { Lasting kept };

    fn get(&self, a: u32) -> Option<Self::Entry>
        ensures { result ≡ entry self.now a };

    fn takes(&self, a: u32) -> bool
        ensures { result ≡ taken self.now a };

    fn put(&mut self, a: u32, v: Self::Entry) -> Result<(), NotTaken>
        ensures answer { is_ok result ≡ taken self.old a }
        ensures refused { is_ok result ≡ false → self.new ≡ self.old }
        ensures made { is_ok result ≡ true → Put (entry self.old) (entry self.new) (taken self.old) (taken self.new) a v }
        ensures kept { kept self.old self.new };

    fn drop(&mut self, a: u32)
        ensures dropped { Dropped (entry self.old) (entry self.new) (taken self.old) (taken self.new) a }
        ensures kept { kept self.old self.new };
}
