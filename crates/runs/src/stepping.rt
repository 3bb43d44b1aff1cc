// One step.
ghost use Rattle.std.specs.Prelude.{◌≡◌, ◌<◌, false, IfOk, MatchResult, length};
ghost use Rattle.module.specs.Modules.{said};
ghost use Rattle.machine.specs.Machine.{Step, instruction};
ghost use Rattle.machine.specs.inside.Parts.{take_turn};
ghost use Rattle.machine.specs.Goes.{Ready, Unready};
ghost use Rattle.runs.specs.inside.Entering.{leaves};
ghost use Rattle.runs.specs.Seen.{seen, sight};
ghost use Rattle.runs.specs.inside.Making.{answer, halted, placed, seen_at, IsNewest, Stepped, Tried};

use crate::entered::{Entered, leaves};
use crate::run::{Live, Run};
use machine::event::Event;
use machine::refusal::{NotReady, Refusal, Stop};
use module::module::Module;
use rules::lookup::item_at;
use stores::store::Store;
use values::marked::Marked;

impl<S: Store<Entry = Marked>> Live<S> {
    // The instruction whose turn it is. No run comes to a frame without one.
    #[tactic(auto, using(crate::proofs::Turns::whose_turn, crate::proofs::Turns::at_code))]
    fn turn(&mut self, on: &Entered, place: &mut u32, memory: &mut [u32]) -> Result<Event, Stop>
        requires newest { IsNewest on.now self.old }
        requires stands { 0 < length self.old.stack }
        requires sized { length memory.old ≡ (said on.now.module.now).memory }
        ensures { Tried S.entry S.taken S.kept (λ m s f rest. take_turn m s f rest (instruction m f)) on.now self.old place.old memory.old result self.new place.new memory.new }
    {
        let Some(instruction) = item_at(on.code, *place as usize) else {
            return Err(Stop::NotCode);
        };
        self.perform(on, place, memory, instruction)
    }

    // A step at a place that is kept beside the newest frame.
    #[tactic(auto, using(crate::proofs::Turns::stepped))]
    pub(crate) fn make(
        &mut self,
        on: &Entered,
        place: &mut u32,
        memory: &mut [u32],
    ) -> Result<Event, Stop>
        requires newest { IsNewest on.now self.old }
        requires stands { 0 < length self.old.stack }
        requires sized { length memory.old ≡ (said on.now.module.now).memory }
        ensures kept { (before : S) → S.kept before self.old.store → S.kept before self.new.store }
        ensures step { Stepped S.entry S.taken on.now.module.now self.old place.old memory.old result self.new place.new memory.new }
    {
        self.turn(on, place, memory)
    }

    // The same, and then what is known of the frame that is the newest.
    #[tactic(auto, using(crate::proofs::Turns::followed, crate::proofs::Turns::still_stands))]
    pub(crate) fn make_on<'a>(
        &mut self,
        on: &mut Entered<'a>,
        place: &mut u32,
        memory: &mut [u32],
    ) -> Result<Event, Stop>
        requires newest { IsNewest on.old self.old }
        requires stands { 0 < length self.old.stack }
        requires sized { length memory.old ≡ (said on.old.module.now).memory }
        ensures kept { (before : S) → S.kept before self.old.store → S.kept before self.new.store }
        ensures step { Stepped S.entry S.taken on.old.module.now self.old place.old memory.old result self.new place.new memory.new }
        ensures newest { IfOk result (λ _. IsNewest on.new self.new) }
        ensures stands { IfOk result (λ e. leaves e.kind ≡ false → 0 < length self.new.stack) }
        ensures lent { on.new.module.now ≡ on.old.module.now }
    {
        let event = self.make(on, place, memory)?;
        if leaves(event.kind) {
            *on = self.entered(on.module);
        }
        Ok(event)
    }

    fn step(&mut self, program: &Module, memory: &mut [u32]) -> Result<Event, Stop>
        requires stands { 0 < length self.old.stack }
        requires sized { length memory.old ≡ (said program.now).memory }
        ensures kept { (before : S) → S.kept before self.old.store → S.kept before self.new.store }
        ensures step { Step program.now (sight S.entry S.taken self.old self.old.stack false memory.old) (answer result) (sight S.entry S.taken self.new self.new.stack (halted result) memory.new) }
    {
        let on = self.entered(program);
        let mut place = self.stack.place();
        let made = self.make(&on, &mut place, memory);
        self.stack.set_place(place);
        made
    }
}

impl<S: Store<Entry = Marked>> Run<S> {
    // Refused after the end or a stop, and on a memory that hasn't the module's size.
    pub(crate) fn ready(&self, memory: &[u32]) -> Result<(), NotReady>
        ensures { MatchResult result (λ _. Ready self.now.module (seen S.entry S.taken self.now memory.now)) (λ why. Unready self.now.module (seen S.entry S.taken self.now memory.now) why) }
    {
        if self.stopped || self.live.stack.len() == 0 {
            return Err(NotReady::Over);
        }
        if memory.len() != self.module.memory() as usize {
            return Err(NotReady::Memory);
        }
        Ok(())
    }

    // Makes the next instruction, on a memory that the panel may have written to.
    pub fn step(&mut self, memory: &mut [u32]) -> Result<Event, Refusal>
        ensures module { self.new.module ≡ self.old.module }
        ensures kept { S.kept self.old.live.store self.new.live.store }
        ensures step { Step self.old.module (seen S.entry S.taken self.old memory.old) result (seen S.entry S.taken self.new memory.new) }
    {
        self.ready(memory)?;
        let made = self.live.step(&self.module, memory);
        self.stopped = made.is_err();
        Ok(made?)
    }
}
