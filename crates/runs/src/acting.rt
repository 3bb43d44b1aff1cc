// What a made step does to the newest frame.
ghost use Rattle.std.specs.Prelude.{◌≡◌, ◌+◌, ◌<◌};
ghost use Rattle.machine.specs.inside.Parts.{kept};
ghost use Rattle.stack.specs.Stack.{newest, with_newest, with_local};
ghost use Rattle.runs.specs.inside.Making.{IsNewest};

use crate::entered::Entered;
use crate::run::Live;
use machine::held::Held;
use machine::local_number::LocalNumber;
use machine::value::Value;

impl<S> Live<S> {
    // Local x takes a value, plain where its type isn't sensitive, and the frame goes on.
    pub(crate) fn give(&mut self, on: &Entered, place: &mut u32, x: u32, v: Held)
        requires newest { IsNewest on.now self.old }
        requires near { place.old < 1024 }
        requires below { x < 8 }
        ensures next { place.new ≡ place.old + 1 }
        ensures given { self.new ≡ record self.old { stack = with_newest (with_local x (kept on.now.module.now (newest self.old.stack) x v)) self.old.stack } }
    {
        let kept = if self.is_sensitive(on, x) {
            v
        } else {
            Held::of(Value::Plain(v.word()))
        };
        self.stack.set_local(LocalNumber { x }, kept);
        *place += 1;
    }
}
