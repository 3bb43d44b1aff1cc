// Why a call isn't done.
ghost use Rattle.std.specs.Prelude.{◌≡◌, ◌-◌, ◌^◌};
ghost use Rattle.exports.specs.inside.Undoing.{number_of};

use module::fault::ModuleFault;
use std::alloc::AllocError;

#[derive(Clone, Copy)]
pub(crate) enum Undone {
    // The image's first fault.
    Image(ModuleFault),
    // There is no such kind of store.
    Kind,
    // The memory hasn't the module's size.
    Memory,
    // There was no room.
    Room,
}

impl From<AllocError> for Undone {
    ghost use Rattle.exports.specs.declared.undone.Undone.TheVariants as undone;

    ghost from_gives = { λ _ u. u ≡ undone.Room };

    fn from(_none: AllocError) -> Undone {
        Undone::Room
    }
}

impl Undone {
    fn number(self) -> u32
        ensures { result ≡ number_of self }
    {
        match self {
            Undone::Image(fault) => fault.refusal().number,
            Undone::Kind => 10,
            Undone::Memory => 12,
            Undone::Room => 0,
        }
    }

    // What C is answered: higher than any number of steps.
    pub(crate) fn answer(self) -> u64
        ensures { result ≡ 2 ^ 64 - 1 - number_of self }
    {
        u64::MAX - self.number() as u64
    }
}
