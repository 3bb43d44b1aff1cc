// Runs on a store of a kind that is chosen by number.
ghost use Rattle.std.specs.Prelude.{◌≡◌, ◌*◌, ◌^◌, ◌<◌, length, MatchResult};
ghost use Rattle.module.specs.Follows.{Follows};
ghost use Rattle.module.specs.Modules.{said};
ghost use Rattle.machine.specs.Goes.{Ready};
ghost use Rattle.runs.specs.Seen.{seen};
ghost use Rattle.module.specs.Refusals.{Refused};
ghost use Rattle.exports.specs.Stores.{NoKind};
ghost use Rattle.exports.specs.inside.Undoing.{OtherSize, Why};
ghost use Rattle.exports.specs.Runs.{BegunOn, HasBegun, HasRun, Ran, RanOn};

use crate::stores_made::{array, hash, window};
use crate::undone::Undone;
use machine::event::{Event, OTHER};
use machine::gone::Came;
use module::module::Module;
use runs::run::Run;
use std::alloc::Global;
use stores::store::Store;
use values::marked::Marked;

fn module_of(image: &[u8]) -> Result<Module, Undone>
    ensures { MatchResult result (λ m. Follows image.now (said m)) (λ u. Why (λ f. Refused image.now f) ⊥ ⊥ u) }
{
    let mut module = Module::new();
    match module.read(image) {
        Ok(()) => Ok(module),
        Err(fault) => Err(Undone::Image(fault)),
    }
}

// Slices of as many steps as the list has places, until the run ends, a step stops, or so many slices are made. Answers how many steps were made.
fn go_on<S: Store<Entry = Marked>>(
    run: &mut Run<S>,
    memory: &mut [u32],
    events: &mut [Event],
    slices: u32,
) -> u64
    requires ready { Ready run.old.module (seen S.entry S.taken run.old memory.old) }
    requires few { length events.old < 2 ^ 32 }
    ensures { Ran run.old.module (seen S.entry S.taken run.old memory.old) (slices * length events.old) result (seen S.entry S.taken run.new memory.new) }
{
    let each = events.len() as u32;
    for k in 0..slices {
        match run.go(memory, events) {
            Ok(gone) => match gone.came {
                Came::Full => {}
                _ => return k as u64 * each as u64 + gone.made as u64,
            },
            Err(_) => unreachable(),
        }
    }
    slices as u64 * each as u64
}

fn run_on<S: Store<Entry = Marked> + Drop>(
    store: S,
    program: &Module,
    memory: &mut [u32],
    events: &mut [Event],
    slices: u32,
) -> u64
    requires sized { length memory.old ≡ (said program.now).memory }
    requires few { length events.old < 2 ^ 32 }
    ensures { RanOn S.entry S.taken S.kept program.now store memory.old (slices * length events.old) result memory.new }
{
    let mut run = Run::begin(program, store);
    go_on(&mut run, memory, events, slices)
}

pub(crate) fn run(
    heap: Global,
    image: &[u8],
    kind: u32,
    slots: usize,
    memory: &mut [u32],
    events: u32,
    slices: u32,
) -> Result<u64, Undone>
    ensures { MatchResult result (λ n. HasRun image.now kind slots memory.old (slices * events) n memory.new) (λ u. Why (λ f. Refused image.now f) (NoKind kind) (OtherSize image.now memory.old) u × (memory.new ≡ memory.old)) }
{
    let module = module_of(image)?;
    if memory.len() != module.memory() as usize {
        return Err(Undone::Memory);
    }
    let mut list = vec![in heap; OTHER; events as usize]?;
    let list = list.as_mut_slice();
    match kind {
        0 => Ok(run_on(array(heap, slots)?, &module, memory, list, slices)),
        1 => Ok(run_on(hash(heap, slots)?, &module, memory, list, slices)),
        2 => {
            let store = window(heap, slots, module.memory())?;
            Ok(run_on(store, &module, memory, list, slices))
        }
        _ => Err(Undone::Kind),
    }
}

fn begin_on<S: Store<Entry = Marked> + Drop>(store: S, program: &Module) -> u64
    ensures { BegunOn S.entry S.taken S.kept program.now store result }
{
    Run::begin(program, store).depth() as u64
}

pub(crate) fn begin(heap: Global, image: &[u8], kind: u32, slots: usize) -> Result<u64, Undone>
    ensures { MatchResult result (λ n. HasBegun image.now kind slots n) (λ u. Why (λ f. Refused image.now f) (NoKind kind) ⊥ u) }
{
    let module = module_of(image)?;
    match kind {
        0 => Ok(begin_on(array(heap, slots)?, &module)),
        1 => Ok(begin_on(hash(heap, slots)?, &module)),
        2 => Ok(begin_on(window(heap, slots, module.memory())?, &module)),
        _ => Err(Undone::Kind),
    }
}
