// Instructions that compute a number, or copy a value.
ghost use Rattle.std.specs.Prelude.{Ok, ◌<◌};
ghost use Rattle.content.specs.declared.instruction.Instruction.TheVariants.{Add, Cast, Less, Subtract};
ghost use Rattle.machine.specs.Events.{other};
ghost use Rattle.machine.specs.declared.value.Value.TheVariants.{Plain};
ghost use Rattle.machine.specs.Machine.{gives, make};
ghost use Rattle.runs.specs.inside.Making.{Going, Tried};

use crate::entered::Entered;
use crate::run::Live;
use machine::event::{Event, OTHER};
use machine::held::Held;
use machine::value::Value;
use stores::store::Store;
use values::marked::Marked;

impl<S: Store<Entry = Marked>> Live<S> {
    // Local x takes a value, which is no decision.
    #[tactic(auto, using(crate::proofs::Newest::given_on))]
    pub(crate) fn set(
        &mut self,
        on: &Entered,
        place: &mut u32,
        memory: &[u32],
        x: u32,
        v: Held,
    ) -> Event
        requires going { Going S.entry S.taken on.now self.old place.old memory.now }
        requires below { x < 8 }
        ensures { Tried S.entry S.taken S.kept (λ m s f rest. gives m s f rest other x v) on.now self.old place.old memory.now (Ok result) self.new place.new memory.now }
    {
        self.give(on, place, x, v);
        OTHER
    }

    // Local x takes a number, plain.
    pub(crate) fn set_number(
        &mut self,
        on: &Entered,
        place: &mut u32,
        memory: &[u32],
        x: u32,
        n: u32,
    ) -> Event
        requires going { Going S.entry S.taken on.now self.old place.old memory.now }
        requires below { x < 8 }
        ensures { Tried S.entry S.taken S.kept (λ m s f rest. gives m s f rest other x (Plain n)) on.now self.old place.old memory.now (Ok result) self.new place.new memory.now }
    {
        self.set(on, place, memory, x, Held::of(Value::Plain(n)))
    }

    pub(crate) fn add(
        &mut self,
        on: &Entered,
        place: &mut u32,
        memory: &[u32],
        x: u32,
        y: u32,
        z: u32,
    ) -> Event
        requires going { Going S.entry S.taken on.now self.old place.old memory.now }
        requires below { (x < 8) × (y < 8) × (z < 8) }
        ensures { Tried S.entry S.taken S.kept (λ m s f rest. make m s f rest (Add x y z)) on.now self.old place.old memory.now (Ok result) self.new place.new memory.now }
    {
        let n = self.word(y).wrapping_add(self.word(z));
        self.set_number(on, place, memory, x, n)
    }

    pub(crate) fn subtract(
        &mut self,
        on: &Entered,
        place: &mut u32,
        memory: &[u32],
        x: u32,
        y: u32,
        z: u32,
    ) -> Event
        requires going { Going S.entry S.taken on.now self.old place.old memory.now }
        requires below { (x < 8) × (y < 8) × (z < 8) }
        ensures { Tried S.entry S.taken S.kept (λ m s f rest. make m s f rest (Subtract x y z)) on.now self.old place.old memory.now (Ok result) self.new place.new memory.now }
    {
        let n = self.word(y).wrapping_sub(self.word(z));
        self.set_number(on, place, memory, x, n)
    }

    pub(crate) fn less(
        &mut self,
        on: &Entered,
        place: &mut u32,
        memory: &[u32],
        x: u32,
        y: u32,
        z: u32,
    ) -> Event
        requires going { Going S.entry S.taken on.now self.old place.old memory.now }
        requires below { (x < 8) × (y < 8) × (z < 8) }
        ensures { Tried S.entry S.taken S.kept (λ m s f rest. make m s f rest (Less x y z)) on.now self.old place.old memory.now (Ok result) self.new place.new memory.now }
    {
        let n = u32::from(self.word(y) < self.word(z));
        self.set_number(on, place, memory, x, n)
    }

    pub(crate) fn cast(
        &mut self,
        on: &Entered,
        place: &mut u32,
        memory: &[u32],
        x: u32,
        y: u32,
    ) -> Event
        requires going { Going S.entry S.taken on.now self.old place.old memory.now }
        requires below { (x < 8) × (y < 8) }
        ensures { Tried S.entry S.taken S.kept (λ m s f rest. make m s f rest (Cast x y)) on.now self.old place.old memory.now (Ok result) self.new place.new memory.now }
    {
        let v = self.held(y);
        self.set(on, place, memory, x, v)
    }
}
