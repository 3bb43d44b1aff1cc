// What a run asks of its module.
ghost use Rattle.std.specs.Prelude.{◌≡◌, ℕ, ◌+◌, ◌≤◌, length, take, drop, slice_index_or};
ghost use Rattle.std.specs.List.{slice_get};
ghost use Rattle.tables.specs.Tables.{plain};
ghost use Rattle.module.specs.Modules.{said, instruction_at, local_at};

use crate::module::Module;
use content::function::Function;
use content::instruction::Instruction;
use parts::lists::Lists;
use rules::lookup::item_at;
use tables::layout::Local;

const NO_LOCALS: [Local; 8] = [Local {
    sensitive: false,
    size: None,
}; 8];

// The instructions of a function that the lists have.
fn code_of<'a>(lists: &Lists<'a>, function: &Function) -> &'a [Instruction]
    requires { function.now.first + function.now.count ≤ length lists.now.code.now }
    ensures { result.now ≡ take function.now.count (drop function.now.first lists.now.code.now) }
{
    let first = function.first as usize;
    &lists.code[first..first + function.count as usize]
}

impl Module {
    // How many words the memory of a run has.
    pub fn memory(&self) -> u32
        ensures { result ≡ (said self.now).memory }
    {
        self.parts.header().memory()
    }

    // The instructions of function `k`; none where there is none.
    #[tactic(auto, using(crate::proofs::Functions::no_instruction))]
    pub fn code(&self, k: u32) -> &[Instruction]
        ensures instructions { (place : ℕ) → slice_get result.now place ≡ instruction_at (said self.now) k place }
        ensures few { length result.now ≤ 1024 }
    {
        let lists = self.lists();
        match item_at(lists.functions, k as usize) {
            Some(function) => code_of(&lists, &function),
            None => &[],
        }
    }

    // The instruction at a place of function `k`, if there are both.
    pub fn instruction(&self, k: u32, place: u32) -> Option<Instruction>
        ensures { result ≡ instruction_at (said self.now) k place }
    {
        item_at(self.code(k), place as usize)
    }

    // What has to be known of the locals of function `k`: nothing where there is no such local or function.
    #[tactic(auto, using(crate::proofs::Locals::local_there, crate::proofs::Locals::local_past))]
    pub fn layout(&self, k: u32) -> &[Local; 8]
        ensures { (x : ℕ) → slice_index_or result.now x plain ≡ local_at (said self.now) self.now.sensitive k x }
    {
        let k = k as usize;
        if k < self.layouts.len() {
            &self.layouts[k]
        } else {
            &NO_LOCALS
        }
    }
}
