// The places of a function.
ghost use Rattle.std.specs.Prelude.{◌≡◌, ℕ, ◌<◌, Some};
ghost use Rattle.content.specs.declared.instruction.Instruction.{Instruction as Op};
ghost use Rattle.module.specs.Modules.{said, instruction_at};

use module::module::Module;

// How many instructions a function has; 0 where there is no function.
pub(crate) fn count(program: &Module, f: u32) -> u32
    ensures { (i : ℕ) (o : Op) → instruction_at (said program.now) f i ≡ Some o → i < result }
{
    match program.lists().functions.get(f as usize) {
        Some(function) => function.count,
        None => 0,
    }
}
