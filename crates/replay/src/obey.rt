// A command, done to the loose store, of which there is one or none.
ghost use Rattle.std.specs.Prelude.{Ok};
ghost use Rattle.script.specs.declared.command.Command.TheVariants.{Ask, Build};
ghost use Rattle.replay.specs.Stores.{Obeyed};

use crate::answer::Answer;
use crate::ask::ask as ask_store;
use crate::build::{Loose, build};
use script::command::{Call, Command, Shape};
use std::alloc::{AllocError, Global};
use stores::store::Store;

fn replace(store: &mut Option<Loose>, heap: Global, shape: Shape) -> Result<Answer, AllocError>
    ensures { Obeyed ⟦<Loose as Store>⟧.entry ⟦<Loose as Store>⟧.taken ⟦<Loose as Store>⟧.kept store.old (Build shape) result store.new }
{
    *store = Some(build(heap, shape)?);
    Ok(Answer::Made)
}

// A `match` and no `map_or`: what a closure leaves behind this borrow has no name in a proof.
fn ask(store: &mut Option<Loose>, call: Call) -> Answer
    ensures { Obeyed ⟦<Loose as Store>⟧.entry ⟦<Loose as Store>⟧.taken ⟦<Loose as Store>⟧.kept store.old (Ask call) (Ok result) store.new }
{
    match store {
        Some(store) => ask_store(store, call),
        None => Answer::NoStore,
    }
}

// Fails only for want of memory, and then changes nothing.
pub fn obey(store: &mut Option<Loose>, heap: Global, command: Command) -> Result<Answer, AllocError>
    ensures { Obeyed ⟦<Loose as Store>⟧.entry ⟦<Loose as Store>⟧.taken ⟦<Loose as Store>⟧.kept store.old command result store.new }
{
    match command {
        Command::Build(shape) => replace(store, heap, shape),
        Command::Ask(call) => Ok(ask(store, call)),
    }
}
