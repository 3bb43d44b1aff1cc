// Allocation: the first words that the heap has left.
ghost use Rattle.std.specs.Prelude.{◌*◌, ◌<◌};
ghost use Rattle.machine.specs.Frames.{value};
ghost use Rattle.machine.specs.Values.{word};
ghost use Rattle.machine.specs.Machine.{allocate, size};
ghost use Rattle.runs.specs.inside.Making.{Going, Tried};

use crate::entered::Entered;
use crate::run::Live;
use machine::event::{Event, EventKind};
use machine::held::Held;
use machine::refusal::Stop;
use machine::value::Value;
use stores::store::Store;
use values::marked::Marked;

impl<S: Store<Entry = Marked>> Live<S> {
    #[tactic(auto, using(crate::proofs::Newest::given_on))]
    pub(crate) fn allocate(
        &mut self,
        on: &Entered,
        place: &mut u32,
        memory: &[u32],
        x: u32,
        y: u32,
    ) -> Result<Event, Stop>
        requires going { Going S.entry S.taken on.now self.old place.old memory.now }
        requires below { (x < 8) × (y < 8) }
        ensures { Tried S.entry S.taken S.kept (λ m s f rest. allocate m s f rest x (word (value f y)) (word (value f y) * size m f x)) on.now self.old place.old memory.now result self.new place.new memory.now }
    {
        let n = self.word(y);
        let low = self.heap;
        let high = low as u64 + n as u64 * self.size(on, x) as u64;
        if n == 0 || high > on.module.memory() as u64 {
            return Err(Stop::HeapFull);
        }
        let high = high as u32;
        self.give(on, place, x, Held::of(Value::data(low, low, high)));
        self.heap = high;
        Ok(Event {
            kind: EventKind::Allocated,
            word: n,
        })
    }
}
