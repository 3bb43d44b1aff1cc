// Finding the functions that a run can enter, in rounds until nothing is new.
ghost use Rattle.std.specs.Prelude.{◌≡◌, ℕ, ◌<◌, true, false, length, slice_index_or, Decides};
ghost use Rattle.module.specs.Modules.{said};
ghost use Rattle.enterable.specs.Enterable.{Enterable, EnterableThrough};
ghost use Rattle.enterable.specs.inside.Rounds.{ClosedAt, ClosedOver, ClosedBelow, Grown, enters};

use crate::functions::EnterableFunctions;
use crate::places::count;
use content::instruction::Instruction;
use module::module::Module;

// Puts in what the instruction at a place leads to, and says whether that is new.
fn add_at(program: &Module, f: u32, place: u32, found: &mut EnterableFunctions) -> bool
    requires { enters found.old f ≡ true }
    ensures { Grown (said program.now) (ClosedAt (said program.now) f place) found.old found.new result }
{
    match program.instruction(f, place) {
        Some(Instruction::Call { function }) => found.add_called(function),
        Some(Instruction::Function { function, .. }) => found.add_taken(function),
        _ => false,
    }
}

fn add_from(program: &Module, f: u32, found: &mut EnterableFunctions) -> bool
    requires { enters found.old f ≡ true }
    ensures { Grown (said program.now) (ClosedOver (said program.now) f) found.old found.new result }
{
    let mut changed = false;
    for place in 0..count(program, f) {
        changed = add_at(program, f, place, found) || changed;
    }
    changed
}

fn round(program: &Module, found: &mut EnterableFunctions) -> bool
    ensures { Grown (said program.now) (ClosedBelow (said program.now) 64) found.old found.new result }
{
    let mut changed = false;
    for f in 0..64 {
        if found.enters(f) {
            changed = add_from(program, f, found) || changed;
        }
    }
    changed
}

// Exactly the functions that a run of the module can enter.
pub fn enterable(program: &Module) -> EnterableFunctions
    ensures all { (k : ℕ) → Decides (slice_index_or result.all k false) (∥ Enterable (said program.now) k ∥₁) }
    ensures there { (k : ℕ) → slice_index_or result.all k false ≡ true → k < length (said program.now).functions }
    ensures through { (k : ℕ) → Decides (slice_index_or result.through k false) (∥ EnterableThrough (said program.now) k ∥₁) }
{
    let mut found = EnterableFunctions::first();
    while round(program, &mut found) {}
    found
}
