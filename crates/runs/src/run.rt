// A run of a module, on a store that is its own.
use module::module::Module;
use stack::stack::Stack;

// What instructions change, beside the memory.
#[derive(Drop)]
pub struct Live<S> {
    pub(crate) stack: Stack,
    // Where the unused words of the heap begin.
    pub(crate) heap: u32,
    pub(crate) store: S,
}

// Only begin, step and go make its states.
#[derive(Drop)]
pub struct Run<S> {
    pub(crate) module: Module,
    pub(crate) live: Live<S>,
    pub(crate) stopped: bool,
}
