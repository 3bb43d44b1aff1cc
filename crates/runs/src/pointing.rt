// Addresses: of globals, moved, and of fields of records.
ghost use Rattle.std.specs.Prelude.{◌≡◌, ◌+◌, Ok, ◌<◌};
ghost use Rattle.machine.specs.Frames.{value};
ghost use Rattle.machine.specs.Values.{bounds_of, data_in, word, with_word, wrapped};
ghost use Rattle.machine.specs.inside.Parts.{within};
ghost use Rattle.content.specs.declared.instruction.Instruction.TheVariants.{Global};
ghost use Rattle.module.specs.Modules.{said};
ghost use Rattle.machine.specs.Machine.{make, move, size, start_of};
ghost use Rattle.machine.specs.inside.Parts.{field};
ghost use Rattle.runs.specs.inside.Making.{Going, Tried};

use crate::entered::Entered;
use crate::run::Live;
use machine::event::{Event, EventKind, OTHER};
use machine::held::Held;
use machine::refusal::Stop;
use machine::value::Value;
use module::module::Module;
use stores::store::Store;
use values::bounds::Bounds;
use values::marked::Marked;

fn wrapped(n: u64) -> u32
    ensures { result ≡ wrapped n }
{
    (n % 0x1_0000_0000) as u32
}

// The same mark k words on.
fn shifted(value: Value, k: u32) -> Value
    ensures { result ≡ with_word value (wrapped (word value + k)) }
{
    let at = wrapped(value.word() as u64 + k as u64);
    match value {
        Value::Plain(_) => Value::Plain(at),
        Value::Marked(Marked::Code(_)) => Value::Marked(Marked::Code(at)),
        Value::Marked(Marked::Data(_, bounds)) => Value::Marked(Marked::Data(at, bounds)),
    }
}

// Whether so many words at this one lie within the bounds.
pub(crate) fn within(bounds: Bounds, word: u32, words: u32) -> bool
    ensures { result ≡ within bounds word words }
{
    bounds.low() <= word && word as u64 + words as u64 <= bounds.high() as u64
}

// The address of all of a global.
#[tactic(auto, using(crate::proofs::Beyond::nothing_beyond))]
fn global_of(program: &Module, global: u32) -> Value
    ensures { result ≡ data_in (bounds_of (start_of (said program.now).types (said program.now).globals global) (start_of (said program.now).types (said program.now).globals (global + 1))) (start_of (said program.now).types (said program.now).globals global) }
{
    match program.span(global) {
        Some(span) => Value::data(span.low, span.low, span.high),
        None => Value::Plain(program.heap()),
    }
}

impl<S: Store<Entry = Marked>> Live<S> {
    // The address of field k of the record at y.
    #[tactic(auto, using(crate::proofs::Newest::given_on))]
    pub(crate) fn field(
        &mut self,
        on: &Entered,
        place: &mut u32,
        memory: &[u32],
        x: u32,
        y: u32,
        k: u32,
    ) -> Result<Event, Stop>
        requires going { Going S.entry S.taken on.now self.old place.old memory.now }
        requires below { (x < 8) × (y < 8) }
        ensures { Tried S.entry S.taken S.kept (λ m s f rest. field m s f rest x y k) on.now self.old place.old memory.now result self.new place.new memory.now }
    {
        if !self.is_sensitive(on, y) {
            self.give(on, place, x, Held::of(shifted(self.value(y), k)));
            return Ok(OTHER);
        }
        let Value::Marked(Marked::Data(word, bounds)) = self.value(y) else {
            return Err(Stop::NotData);
        };
        if !within(bounds, word, self.size(on, y)) {
            return Err(Stop::Outside);
        }
        let v = Value::Marked(Marked::Data(wrapped(word as u64 + k as u64), bounds));
        self.give(on, place, x, Held::of(v));
        Ok(OTHER)
    }

    pub(crate) fn point_at(
        &mut self,
        on: &Entered,
        place: &mut u32,
        memory: &[u32],
        x: u32,
        global: u32,
    ) -> Event
        requires going { Going S.entry S.taken on.now self.old place.old memory.now }
        requires below { x < 8 }
        ensures { Tried S.entry S.taken S.kept (λ m s f rest. make m s f rest (Global x global)) on.now self.old place.old memory.now (Ok result) self.new place.new memory.now }
    {
        let v = global_of(on.module, global);
        self.set(on, place, memory, x, Held::of(v))
    }

    // y moved by z, counted in what it points at.
    #[tactic(auto, using(crate::proofs::Newest::given_on))]
    pub(crate) fn move_by(
        &mut self,
        on: &Entered,
        place: &mut u32,
        memory: &[u32],
        x: u32,
        y: u32,
        z: u32,
    ) -> Event
        requires going { Going S.entry S.taken on.now self.old place.old memory.now }
        requires below { (x < 8) × (y < 8) × (z < 8) }
        ensures { Tried S.entry S.taken S.kept (λ m s f rest. move m s f rest x (value f y) (word (value f z)) (size m f x)) on.now self.old place.old memory.now (Ok result) self.new place.new memory.now }
    {
        let n = self.word(z);
        let by = n as u64 * self.size(on, x) as u64;
        match self.value(y) {
            Value::Marked(Marked::Data(word, bounds)) => {
                let v = Value::Marked(Marked::Data(wrapped(word as u64 + by), bounds));
                self.give(on, place, x, Held::of(v));
                Event {
                    kind: EventKind::Moved,
                    word: n,
                }
            }
            Value::Plain(word) | Value::Marked(Marked::Code(word)) => {
                self.give(
                    on,
                    place,
                    x,
                    Held::of(Value::Plain(wrapped(word as u64 + by))),
                );
                OTHER
            }
        }
    }
}
