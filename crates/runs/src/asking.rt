// What an instruction asks of the newest frame.
ghost use Rattle.std.specs.Prelude.{◌≡◌, ◌<◌};
ghost use Rattle.machine.specs.Frames.{value};
ghost use Rattle.machine.specs.Values.{word};
ghost use Rattle.stack.specs.Stack.{newest};

use crate::run::Live;
use machine::held::Held;
use machine::local_number::LocalNumber;
use machine::value::Value;

impl<S> Live<S> {
    pub(crate) fn held(&self, x: u32) -> Held
        requires below { x < 8 }
        ensures { result ≡ value (newest self.now.stack) x }
    {
        self.stack.local(LocalNumber { x })
    }

    pub(crate) fn value(&self, x: u32) -> Value
        requires below { x < 8 }
        ensures { result ≡ value (newest self.now.stack) x }
    {
        self.held(x).value()
    }

    pub(crate) fn word(&self, x: u32) -> u32
        requires below { x < 8 }
        ensures { result ≡ word (value (newest self.now.stack) x) }
    {
        self.held(x).word()
    }
}
