// How a run begins.
ghost use Rattle.std.specs.Prelude.{◌≡◌, ℕ, List};
ghost use Rattle.module.specs.Modules.{said};
ghost use Rattle.integrity.specs.Integrity.{Integrity};
ghost use Rattle.machine.specs.Machine.{beginning};
ghost use Rattle.runs.specs.Seen.{seen};
ghost use Rattle.runs.specs.Clearing.{Cleared};

use crate::run::{Live, Run};
use module::module::Module;
use stack::stack::Stack;
use stores::store::Store;
use values::marked::Marked;

// Drops every address below n.
#[tactic(auto, using(crate::proofs::Clear::none_dropped, crate::proofs::Clear::one_dropped))]
fn clear<S: Store<Entry = Marked>>(store: &mut S, n: u32)
    ensures cleared { Cleared n (S.entry store.old) (S.taken store.old) (S.entry store.new) (S.taken store.new) }
    ensures kept { S.kept store.old store.new }
{
    for a in 0..n {
        store.drop(a);
    }
}

impl<S: Store<Entry = Marked>> Run<S> {
    // Copies the module, takes the store for itself, drops every address below the memory size, and enters function 0.
    #[tactic(auto, using(integrity::proofs::Whole::integral))]
    pub fn begin(program: &Module, store: S) -> Run<S>
        ensures module { result.module ≡ program.now }
        ensures state { (memory : List ℕ) → (seen S.entry S.taken result memory).state ≡ beginning program.now }
        ensures cleared { Cleared (said program.now).memory (S.entry store) (S.taken store) (S.entry result.live.store) (S.taken result.live.store) }
        ensures kept { S.kept store result.live.store }
        ensures integrity { (memory : List ℕ) → Integrity program.now (seen S.entry S.taken result memory) }
    {
        let mut store = store;
        clear(&mut store, program.memory());
        let mut stack = Stack::new();
        stack.enter(0);
        Run {
            module: *program,
            live: Live {
                stack,
                heap: program.heap(),
                store,
            },
            stopped: false,
        }
    }
}
