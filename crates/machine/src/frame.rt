// A function that has been entered and hasn't returned.
ghost use Rattle.std.specs.Prelude.{◌≡◌};
ghost use Rattle.machine.specs.Frames.{entered, value};

use crate::held::Held;
use crate::local_number::LocalNumber;
use crate::value::Value;

#[derive(Clone, Copy)]
pub struct Frame {
    pub function: u32,
    // The place of its next instruction, counted within the function.
    pub place: u32,
    pub locals: [Held; 8],
}

impl Frame {
    // As a function is entered: at its first instruction, all locals plain 0.
    pub fn of(function: u32) -> Frame
        ensures { result ≡ entered function }
    {
        Frame {
            function,
            place: 0,
            locals: [Held::of(Value::Plain(0)); 8],
        }
    }

    // What local x holds; plain 0 where there is none.
    pub fn local(&self, x: u32) -> Value
        ensures { result ≡ value self.now x }
    {
        match self.locals.get(x as usize) {
            Some(held) => held.value(),
            None => Value::Plain(0),
        }
    }

    // One that is there, as it is held.
    pub fn held(&self, number: LocalNumber) -> Held
        ensures { result ≡ value self.now number.x }
    {
        self.locals[number.x as usize]
    }
}
