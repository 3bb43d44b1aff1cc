// A whole firing, told in sentences: the kiln's module is read and looked at, and runs beside a panel that bends its table
// of segments in the regular memory; then once more, on another store and beside another panel.
#![tactic(auto)]

mod comparing;
mod entered;
mod firing;
mod kiln;
mod look;
mod panel;
mod segment;
mod statement;
mod telling;

use array_store::ArrayStore;
use comparing::compare;
use enterable::functions::EnterableFunctions;
use firing::{Firing, SLICE};
use hash_store::HashStore;
use look::{read_module, tell_module};
use module::module::Module;
use panel::Panel;
use segment::Segment;
use statement::tell_statement;
use tables::places::Span;
use values::marked::Marked;
use window::Window;

const SLOTS: usize = 8;

// Where the window's addresses begin in the store below.
const BASE: u32 = 1000;

type Shown = Window<HashStore<Marked>>;

// On a hash store behind a window, in slices; the panel bends the table.
fn fire_in_slices(
    rt: &HostRuntime,
    module: &Module,
    at: Span,
    stated: &EnterableFunctions,
) -> anyhow::Result<Firing<Shown>> {
    let heap = rt.alloc();
    let memory = module.memory();
    let slots = vec![in heap; None; SLOTS]?;
    let store = Window::new(BASE, memory, HashStore::new(slots));
    let panel = Panel {
        function: Segment::FullPower.into(),
        words: at,
    };
    println!(rt;
        "A run begins on a hash store of {SLOTS} slots, behind a window of {memory} addresses, and goes on in slices of {SLICE} steps."
    )?;
    let mut firing = Firing::begin(heap, module, store)?;
    firing.go_in_slices(rt, panel)?;
    firing.tell(rt, at)?;
    firing.tell_within(rt, stated)?;
    Ok(firing)
}

// On an array store, step by step; the panel bends all of the memory.
fn fire_by_steps(
    rt: &HostRuntime,
    module: &Module,
    at: Span,
    stated: &EnterableFunctions,
) -> anyhow::Result<Firing<ArrayStore<Marked>>> {
    let heap = rt.alloc();
    let memory = module.memory();
    let slots = vec![in heap; None; memory as usize]?;
    let store = ArrayStore::new(slots);
    let panel = Panel {
        function: Segment::Off.into(),
        words: Span {
            low: 0,
            high: memory,
        },
    };
    println!(rt;
        "The same module's run begins on an array store of {memory} slots, and goes on step by step."
    )?;
    let mut firing = Firing::begin(heap, module, store)?;
    firing.go_by_steps(rt, panel)?;
    firing.tell(rt, at)?;
    firing.tell_within(rt, stated)?;
    Ok(firing)
}

// What the contract of `Run::begin` says of every run; the two told above are cases of it.
const PROMISE: &str =
    "Of every run of every module, on any store and whatever a panel writes between its calls, it is proved:\n  no function is entered but those that are stated for the module as above;\n  each function entered through a pointer is one whose address the module took before;\n  what is marked in the store or in a frame is such a function, or has the bounds of one global or one allocated block, and nothing is reached through it outside these;\n  and two runs of one module that decide alike enter the same functions.\nNot promised are times and temperatures, what the panel shows, and that a run goes on.\n";

fn main(rt: HostRuntime) -> anyhow::Result<()> {
    let module = read_module()?;
    let at = tell_module(&rt, &module)?;
    let stated = tell_statement(&rt, &module)?;
    let first = fire_in_slices(&rt, &module, at, &stated)?;
    let second = fire_by_steps(&rt, &module, at, &stated)?;
    compare(&rt, &first, &second)?;
    rt.print(PROMISE)?;
    Ok(())
}
