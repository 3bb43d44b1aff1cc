// Steps, until the list of events is full, the run has ended or a step stops.
ghost use Rattle.std.specs.Prelude.{◌≡◌, ◌<◌, false, length};
ghost use Rattle.module.specs.Modules.{said};
ghost use Rattle.machine.specs.Goes.{Go, Went};
ghost use Rattle.runs.specs.Seen.{seen, sight};
ghost use Rattle.runs.specs.inside.Making.{came_to_halt};

use crate::run::{Live, Run};
use machine::event::Event;
use machine::gone::{Came, Gone};
use machine::refusal::NotReady;
use module::module::Module;
use stores::store::Store;
use values::marked::Marked;

// In parts, since a whole event is moved with the bytes between its parts.
fn tell(at: &mut Event, event: Event)
    ensures { at.new ≡ event }
{
    at.kind = event.kind;
    at.word = event.word;
}

impl<S: Store<Entry = Marked>> Live<S> {
    // The newest frame's function and place are kept at hand, and looked up again where another frame becomes the newest.
    #[tactic(auto, using(crate::proofs::Turns::started, crate::proofs::Progress::one_more, crate::proofs::Progress::went_full, crate::proofs::Progress::went_ended, crate::proofs::Progress::went_stopped))]
    fn go(&mut self, program: &Module, memory: &mut [u32], events: &mut [Event]) -> Gone
        requires stands { 0 < length self.old.stack }
        requires sized { length memory.old ≡ (said program.now).memory }
        ensures kept { S.kept self.old.store self.new.store }
        ensures went { Went program.now (sight S.entry S.taken self.old self.old.stack false memory.old) events.old result (sight S.entry S.taken self.new self.new.stack (came_to_halt result.came) memory.new) events.new }
    {
        let mut on = self.entered(program);
        let mut place = self.stack.place();
        let mut made = 0;
        let mut stands = true;
        while made < events.len() && stands {
            match self.make_on(&mut on, &mut place, memory) {
                Ok(event) => {
                    tell(&mut events[made], event);
                    stands = self.stands_after(event.kind);
                }
                Err(stop) => {
                    self.stack.set_place(place);
                    return Gone {
                        made,
                        came: Came::Stopped(stop),
                    };
                }
            }
            made += 1;
        }
        self.stack.set_place(place);
        let came = if stands { Came::Full } else { Came::Ended };
        Gone { made, came }
    }
}

impl<S: Store<Entry = Marked>> Run<S> {
    // Writes the events from the list's first place on, and leaves the places behind. Refused as a step is, also with an empty list.
    pub fn go(&mut self, memory: &mut [u32], events: &mut [Event]) -> Result<Gone, NotReady>
        ensures module { self.new.module ≡ self.old.module }
        ensures kept { S.kept self.old.live.store self.new.live.store }
        ensures go { Go self.old.module (seen S.entry S.taken self.old memory.old) events.old result (seen S.entry S.taken self.new memory.new) events.new }
    {
        self.ready(memory)?;
        let gone = self.live.go(&self.module, memory, events);
        self.stopped = matches!(gone.came, Came::Stopped(_));
        Ok(gone)
    }
}
