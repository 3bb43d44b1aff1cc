// Loads and stores.
ghost use Rattle.std.specs.Prelude.{◌≡◌, Ok, slice_set, ◌<◌};
ghost use Rattle.machine.specs.Frames.{value};
ghost use Rattle.machine.specs.Values.{word};
ghost use Rattle.machine.specs.Machine.{keep, load_plain, load_within, store_plain};
ghost use Rattle.machine.specs.inside.Parts.{load, store, store_within};
ghost use Rattle.runs.specs.inside.Making.{Going, Tried};

use crate::entered::Entered;
use crate::pointing::within;
use crate::run::Live;
use machine::event::{Event, OTHER};
use machine::held::Held;
use machine::refusal::Stop;
use machine::value::Value;
use stores::store::Store;
use values::marked::Marked;

impl<S: Store<Entry = Marked>> Live<S> {
    // A load that the store goes before.
    #[tactic(auto, using(crate::proofs::Newest::given_on))]
    fn load_within(
        &mut self,
        on: &Entered,
        place: &mut u32,
        memory: &[u32],
        x: u32,
        y: u32,
    ) -> Result<Event, Stop>
        requires going { Going S.entry S.taken on.now self.old place.old memory.now }
        requires below { (x < 8) × (y < 8) }
        ensures { Tried S.entry S.taken S.kept (λ m s f rest. load_within m s f rest x (value f y)) on.now self.old place.old memory.now result self.new place.new memory.now }
    {
        let Value::Marked(Marked::Data(a, bounds)) = self.value(y) else {
            return Err(Stop::NotData);
        };
        if !within(bounds, a, 1) {
            return Err(Stop::Outside);
        }
        let read = match self.store.get(a) {
            Some(marked) => Value::Marked(marked),
            None => Value::Plain(memory.get(a as usize).copied().unwrap_or(0)),
        };
        self.give(on, place, x, Held::of(read));
        Ok(OTHER)
    }

    // A load from the memory alone.
    #[tactic(auto, using(crate::proofs::Newest::given_on))]
    fn load_plain(
        &mut self,
        on: &Entered,
        place: &mut u32,
        memory: &[u32],
        x: u32,
        y: u32,
    ) -> Result<Event, Stop>
        requires going { Going S.entry S.taken on.now self.old place.old memory.now }
        requires below { (x < 8) × (y < 8) }
        ensures { Tried S.entry S.taken S.kept (λ m s f rest. load_plain m s f rest x (word (value f y))) on.now self.old place.old memory.now result self.new place.new memory.now }
    {
        let word = memory
            .get(self.word(y) as usize)
            .copied()
            .ok_or(Stop::Address)?;
        self.give(on, place, x, Held::of(Value::Plain(word)));
        Ok(OTHER)
    }

    pub(crate) fn load(
        &mut self,
        on: &Entered,
        place: &mut u32,
        memory: &[u32],
        x: u32,
        y: u32,
    ) -> Result<Event, Stop>
        requires going { Going S.entry S.taken on.now self.old place.old memory.now }
        requires below { (x < 8) × (y < 8) }
        ensures { Tried S.entry S.taken S.kept (λ m s f rest. load m s f rest x y) on.now self.old place.old memory.now result self.new place.new memory.now }
    {
        if self.is_sensitive(on, x) {
            self.load_within(on, place, memory, x, y)
        } else {
            self.load_plain(on, place, memory, x, y)
        }
    }

    // A marked value goes into the store, a plain one into the memory.
    #[tactic(auto, using(crate::proofs::Newest::placed_on))]
    fn keep(
        &mut self,
        on: &Entered,
        place: &mut u32,
        memory: &mut [u32],
        v: Value,
        a: u32,
    ) -> Result<Event, Stop>
        requires going { Going S.entry S.taken on.now self.old place.old memory.old }
        ensures { Tried S.entry S.taken S.kept (λ m s f rest. keep m s f rest v a) on.now self.old place.old memory.old result self.new place.new memory.new }
    {
        match v {
            Value::Plain(word) => {
                self.store.drop(a);
                write(memory, a, word);
            }
            Value::Marked(marked) => match self.store.put(a, marked) {
                Ok(()) => {}
                Err(_) => return Err(Stop::NotTaken),
            },
        }
        *place += 1;
        Ok(OTHER)
    }

    fn store_within(
        &mut self,
        on: &Entered,
        place: &mut u32,
        memory: &mut [u32],
        x: u32,
        y: u32,
    ) -> Result<Event, Stop>
        requires going { Going S.entry S.taken on.now self.old place.old memory.old }
        requires below { (x < 8) × (y < 8) }
        ensures { Tried S.entry S.taken S.kept (λ m s f rest. store_within m s f rest (value f x) (value f y)) on.now self.old place.old memory.old result self.new place.new memory.new }
    {
        let Value::Marked(Marked::Data(a, bounds)) = self.value(y) else {
            return Err(Stop::NotData);
        };
        if !within(bounds, a, 1) {
            return Err(Stop::Outside);
        }
        let v = self.value(x);
        self.keep(on, place, memory, v, a)
    }

    #[tactic(auto, using(crate::proofs::Newest::placed_on))]
    fn store_plain(
        &mut self,
        on: &Entered,
        place: &mut u32,
        memory: &mut [u32],
        x: u32,
        y: u32,
    ) -> Result<Event, Stop>
        requires going { Going S.entry S.taken on.now self.old place.old memory.old }
        requires below { (x < 8) × (y < 8) }
        ensures { Tried S.entry S.taken S.kept (λ m s f rest. store_plain m s f rest (word (value f x)) (word (value f y))) on.now self.old place.old memory.old result self.new place.new memory.new }
    {
        let a = self.word(y) as usize;
        if a >= memory.len() {
            return Err(Stop::Address);
        }
        memory[a] = self.word(x);
        *place += 1;
        Ok(OTHER)
    }

    pub(crate) fn store(
        &mut self,
        on: &Entered,
        place: &mut u32,
        memory: &mut [u32],
        x: u32,
        y: u32,
    ) -> Result<Event, Stop>
        requires going { Going S.entry S.taken on.now self.old place.old memory.old }
        requires below { (x < 8) × (y < 8) }
        ensures { Tried S.entry S.taken S.kept (λ m s f rest. store m s f rest x y) on.now self.old place.old memory.old result self.new place.new memory.new }
    {
        if self.is_sensitive(on, x) {
            self.store_within(on, place, memory, x, y)
        } else {
            self.store_plain(on, place, memory, x, y)
        }
    }
}

// A word of the memory becomes another, if there is one.
#[tactic(auto, using(std::proofs::lemmas::List::set_past))]
fn write(memory: &mut [u32], a: u32, word: u32)
    ensures { memory.new ≡ slice_set memory.old a word }
{
    if (a as usize) < memory.len() {
        memory[a as usize] = word;
    }
}
