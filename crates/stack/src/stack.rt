// The frames that stand, the newest first.
ghost use Rattle.std.specs.Prelude.{◌≡◌, ◌<◌, [], length, drop};
ghost use Rattle.std.specs.List.{slice_get};
ghost use Rattle.std.specs.Option.{option_map};
ghost use Rattle.machine.specs.Machine.{at_place};
ghost use Rattle.machine.specs.Frames.{value};
ghost use Rattle.stack.specs.Stack.{entering, newest, with_newest, with_local};

use machine::frame::Frame;
use machine::held::Held;
use machine::local_number::LocalNumber;
use std::marker::Model;

// The most frames that may stand.
const MOST: usize = 16;

// The newest is kept at a fixed place, since each step asks for it; where none stands it is a fresh one of function 0.
#[derive(Drop)]
pub struct Stack {
    depth: usize,
    top: Frame,
    // The others are the first `depth - 1` of the array, the oldest first.
    below: [Frame; MOST],
}

impl Model for Stack {
    ghost use Rattle.std.specs.Prelude.{List};
    ghost use Rattle.machine.specs.declared.frame.Frame.{Frame};
    ghost use Rattle.stack.specs.inside.Standing.{topped, Topped};

    ghost Value = { List Frame };

    ghost view = { λ s. topped s.depth s.top s.below };

    ghost invariant = { λ s. Topped s.depth s.top };
}

fn set_local_of(frame: &mut Frame, number: LocalNumber, v: Held)
    ensures { frame.new ≡ with_local number.x v frame.old }
{
    frame.locals[number.x as usize] = v;
}

// In parts, which are short enough that the compiler copies them on the spot.
fn set_frame(to: &mut Frame, from: Frame)
    ensures { to.new ≡ from }
{
    to.function = from.function;
    to.place = from.place;
    let locals = from.locals;
    to.locals = locals;
}

impl Stack {
    pub fn new() -> Stack
        ensures { result ≡ [] }
    {
        Stack {
            depth: 0,
            top: Frame::of(0),
            below: [Frame::of(0); MOST],
        }
    }

    #[tactic(auto, using(crate::proofs::Tops::length_topped))]
    pub fn len(&self) -> usize
        ensures { result ≡ length self.now }
    {
        self.depth
    }

    // The frame that stands k below the newest.
    #[tactic(auto, using(crate::proofs::Tops::topped_first, crate::proofs::Tops::topped_none_at, crate::proofs::Tops::topped_some_at))]
    pub fn get(&self, k: usize) -> Option<&Frame>
        ensures { option_map (λ f. f.now) result ≡ slice_get self.now k }
    {
        if k >= self.depth {
            None
        } else if k == 0 {
            Some(&self.top)
        } else {
            Some(&self.below[self.depth - 1 - k])
        }
    }

    // Enters a function, in a frame that is cleared where it will stand; does nothing where 16 stand.
    #[tactic(auto, using(crate::proofs::Tops::enter_more, crate::proofs::Tops::enter_first, crate::proofs::Tops::length_topped))]
    pub fn enter(&mut self, function: u32)
        ensures { self.new ≡ entering function self.old }
    {
        if self.depth < MOST {
            if self.depth > 0 {
                let top = self.top;
                set_frame(&mut self.below[self.depth - 1], top);
            }
            self.top = Frame::of(function);
            self.depth += 1;
        }
    }

    // The function of the newest frame; 0 where none stands.
    #[tactic(auto, using(crate::proofs::Tops::newest_topped))]
    pub fn function(&self) -> u32
        ensures { result ≡ (newest self.now).function }
    {
        self.top.function
    }

    // The place of its next instruction; 0 where none stands.
    #[tactic(auto, using(crate::proofs::Tops::newest_topped))]
    pub fn place(&self) -> u32
        ensures { result ≡ (newest self.now).place }
    {
        self.top.place
    }

    // What its local holds; plain 0 where none stands.
    #[tactic(auto, using(crate::proofs::Tops::newest_topped))]
    pub fn local(&self, number: LocalNumber) -> Held
        ensures { result ≡ value (newest self.now) number.x }
    {
        self.top.held(number)
    }

    // The newest frame goes.
    #[tactic(auto, using(crate::proofs::Tops::leave_more, crate::proofs::Tops::leave_last))]
    pub fn leave(&mut self)
        ensures { self.new ≡ drop 1 self.old }
    {
        if self.depth > 1 {
            let next = self.below[self.depth - 2];
            set_frame(&mut self.top, next);
            self.depth -= 1;
        } else {
            self.depth = 0;
            self.top = Frame::of(0);
        }
    }

    // Its next instruction is at this place; nothing where none stands.
    pub fn set_place(&mut self, place: u32)
        ensures { self.new ≡ with_newest (λ f. at_place f place) self.old }
    {
        if self.depth > 0 {
            self.top.place = place;
        }
    }

    // Its local holds a value; nothing where none stands.
    pub fn set_local(&mut self, number: LocalNumber, v: Held)
        ensures { self.new ≡ with_newest (with_local number.x v) self.old }
    {
        if self.depth > 0 {
            set_local_of(&mut self.top, number, v);
        }
    }
}
