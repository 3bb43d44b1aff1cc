// A store that is one of two: what a script chooses when it is read.
ghost use Rattle.replay.specs.Either.{EitherKept, either};
ghost use Rattle.replay.specs.inside.Lasting.{either_held, either_lasting};

use stores::store::{NotTaken, Store};

// An enum and no boxed `dyn Store`: no function here may make a dyn value and hand it out.
#[derive(Drop)]
pub enum Either<A, B> {
    First(A),
    Second(B),
}

impl<A: Store, B: Store<Entry = A::Entry>> Store for Either<A, B> {
    type Entry = A::Entry;

    ghost entry = { λ s. either A.Store.entry B.Store.entry s };

    ghost taken = { λ s. either A.Store.taken B.Store.taken s };

    ghost held = { λ s. either_held A.Store.entry B.Store.entry A.Store.taken B.Store.taken A.Store.held B.Store.held s };

    ghost kept = { λ s t. EitherKept A.Store.kept B.Store.kept s t };

    ghost lasting = { either_lasting A.Store.kept B.Store.kept A.Store.lasting B.Store.lasting };

    fn get(&self, a: u32) -> Option<A::Entry> {
        match self {
            Either::First(s) => s.get(a),
            Either::Second(s) => s.get(a),
        }
    }

    fn takes(&self, a: u32) -> bool {
        match self {
            Either::First(s) => s.takes(a),
            Either::Second(s) => s.takes(a),
        }
    }

    fn put(&mut self, a: u32, v: A::Entry) -> Result<(), NotTaken> {
        match self {
            Either::First(s) => s.put(a, v),
            Either::Second(s) => s.put(a, v),
        }
    }

    fn drop(&mut self, a: u32) {
        match self {
            Either::First(s) => s.drop(a),
            Either::Second(s) => s.drop(a),
        }
    }
}
