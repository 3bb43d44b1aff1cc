// Where a run goes on: jumps, branches, calls and returns.
ghost use Rattle.std.specs.Prelude.{Ok, ◌<◌};
ghost use Rattle.machine.specs.Values.{word};
ghost use Rattle.machine.specs.Events.{other};
ghost use Rattle.machine.specs.Frames.{value};
ghost use Rattle.machine.specs.Machine.{enter, enter_through, goes, leave};
ghost use Rattle.machine.specs.inside.Parts.{branch};
ghost use Rattle.runs.specs.inside.Making.{Going, Tried};

use crate::entered::Entered;
use crate::run::Live;
use machine::event::{Event, EventKind, OTHER};
use machine::refusal::Stop;
use machine::value::Value;
use stores::store::Store;
use values::marked::Marked;

impl<S: Store<Entry = Marked>> Live<S> {
    #[tactic(auto, using(crate::proofs::Newest::placed_on))]
    pub(crate) fn jump(&mut self, on: &Entered, place: &mut u32, memory: &[u32], to: u32) -> Event
        requires going { Going S.entry S.taken on.now self.old place.old memory.now }
        ensures { Tried S.entry S.taken S.kept (λ m s f rest. goes m s f rest other to) on.now self.old place.old memory.now (Ok result) self.new place.new memory.now }
    {
        *place = to;
        OTHER
    }

    #[tactic(auto, using(crate::proofs::Newest::placed_on))]
    pub(crate) fn branch(
        &mut self,
        on: &Entered,
        place: &mut u32,
        memory: &[u32],
        x: u32,
        to: u32,
    ) -> Event
        requires going { Going S.entry S.taken on.now self.old place.old memory.now }
        requires below { x < 8 }
        ensures { Tried S.entry S.taken S.kept (λ m s f rest. branch m s f rest (word (value f x)) to) on.now self.old place.old memory.now (Ok result) self.new place.new memory.now }
    {
        if self.word(x) == 0 {
            *place += 1;
            Event {
                kind: EventKind::Branched,
                word: 0,
            }
        } else {
            *place = to;
            Event {
                kind: EventKind::Branched,
                word: 1,
            }
        }
    }

    // A function is entered, if a frame more may stand.
    #[tactic(auto, using(crate::proofs::Newest::entered_on))]
    pub(crate) fn enter(
        &mut self,
        on: &Entered,
        place: &mut u32,
        memory: &[u32],
        kind: EventKind,
        function: u32,
    ) -> Result<Event, Stop>
        requires going { Going S.entry S.taken on.now self.old place.old memory.now }
        ensures { Tried S.entry S.taken S.kept (λ m s f rest. enter m s f rest kind function) on.now self.old place.old memory.now result self.new place.new memory.now }
    {
        if self.stack.len() >= on.module.frames() as usize {
            return Err(Stop::StackFull);
        }
        self.stack.set_place(*place + 1);
        self.stack.enter(function);
        *place = 0;
        Ok(Event {
            kind,
            word: function,
        })
    }

    pub(crate) fn enter_through(
        &mut self,
        on: &Entered,
        place: &mut u32,
        memory: &[u32],
        x: u32,
    ) -> Result<Event, Stop>
        requires going { Going S.entry S.taken on.now self.old place.old memory.now }
        requires below { x < 8 }
        ensures { Tried S.entry S.taken S.kept (λ m s f rest. enter_through m s f rest (value f x)) on.now self.old place.old memory.now result self.new place.new memory.now }
    {
        let Value::Marked(Marked::Code(function)) = self.value(x) else {
            return Err(Stop::NotCode);
        };
        self.enter(on, place, memory, EventKind::CalledThrough, function)
    }

    // The newest frame goes; with the last, the run ends.
    #[tactic(auto, using(crate::proofs::Newest::placed_there))]
    pub(crate) fn leave(&mut self, on: &Entered, place: &mut u32, memory: &[u32]) -> Event
        requires going { Going S.entry S.taken on.now self.old place.old memory.now }
        ensures { Tried S.entry S.taken S.kept (λ m s f rest. leave m s f rest rest) on.now self.old place.old memory.now (Ok result) self.new place.new memory.now }
    {
        self.stack.leave();
        *place = self.stack.place();
        let kind = if self.stack.len() == 0 {
            EventKind::Ended
        } else {
            EventKind::Returned
        };
        Event { kind, word: 0 }
    }
}
