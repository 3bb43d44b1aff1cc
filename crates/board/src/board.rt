// The module and the store that a run may begin with, the memory that the panel writes to, and a run.
ghost use Rattle.std.specs.Prelude.{◌≡◌, [], None, vec_items};
ghost use Rattle.module.specs.Modules.{fresh, said};

use module::module::Module;
use runs::run::Run;
use std::alloc::Global;

#[derive(Drop)]
pub struct Board<S> {
    pub module: Module,
    // No run has it.
    pub loose: Option<S>,
    pub(crate) memory: Vec<u32>,
    pub(crate) run: Option<Run<S>>,
}

impl<S> Board<S> {
    // The module before any reading, no store, no words, and no run.
    pub fn new(heap: Global) -> Board<S>
        ensures module { said result.module ≡ fresh }
        ensures store { result.loose ≡ None }
        ensures memory { vec_items result.memory ≡ [] }
        ensures run { result.run ≡ None }
    {
        Board {
            module: Module::new(),
            loose: None,
            memory: Vec::new(heap),
            run: None,
        }
    }
}
