// What the firing's module says, and what becomes of a bent one.
use crate::kiln::KILN;
use anyhow::{Context, anyhow};
use module::module::Module;
use module::reading::judge;
use std::iter::successors;
use tables::places::Span;

// No chain has more links than there are types, and one type more than links.
const LONGEST: usize = 65;

// The global that is the table of segments.
const TABLE: u32 = 1;

// The byte that says what type 2 points at.
const TYPE_2_TO: usize = 88;

// `rt` and the module go to each function that prints: a struct of the two would only add `self.` to both.

fn tell_type(rt: &HostRuntime, module: &Module, t: u32) -> anyhow::Result<()> {
    if let Some(kind) = module.lists().types.get(t as usize) {
        print!(rt; "type {t}, {kind}")?;
    }
    Ok(())
}

// The chain of links that makes a type sensitive.
fn tell_chain(rt: &HostRuntime, module: &Module, first: u32) -> anyhow::Result<()> {
    rt.print("  ")?;
    let chain = successors(Some(first), |t| module.sensitive_link(*t));
    for (place, t) in chain.take(LONGEST).enumerate() {
        if place > 0 {
            rt.print("; ")?;
        }
        tell_type(rt, module, t)?;
    }
    rt.print("\n")?;
    Ok(())
}

fn tell_sensitive(rt: &HostRuntime, module: &Module) -> anyhow::Result<()> {
    rt.print(
        "Values of these types are kept in a safe store, out of the panel's reach. Each is sensitive by a chain of links to void or function:\n",
    )?;
    // Over the numbers of the types, since these are what is asked and told.
    let types = 0..module.lists().types.len() as u32;
    for t in types.filter(|t| module.is_sensitive(*t)) {
        tell_chain(rt, module, t)?;
    }
    Ok(())
}

fn tell_bent(rt: &HostRuntime) -> anyhow::Result<()> {
    let mut bent = *KILN;
    bent[TYPE_2_TO] = 9;
    match judge(&bent) {
        Ok(()) => rt.print("A bent image is accepted.\n")?,
        Err(fault) => {
            println!(rt; "The same image with type 2 pointing at type 9 is refused, {fault}.")?;
        }
    }
    Ok(())
}

pub(crate) fn read_module() -> anyhow::Result<Module> {
    let mut module = Module::new();
    module
        .read(KILN)
        .map_err(|fault| anyhow!("the module's image is refused, {fault}"))?;
    Ok(module)
}

// Tells of the module, and answers where its table of segments lies.
pub(crate) fn tell_module(rt: &HostRuntime, module: &Module) -> anyhow::Result<Span> {
    let bytes = KILN.len();
    let lists = module.lists();
    let functions = lists.functions.len();
    let instructions = lists.code.len();
    let memory = lists.memory;
    println!(rt;
        "The module's image of {bytes} bytes is accepted: {functions} functions, {instructions} instructions, {memory} words of memory."
    )?;
    tell_sensitive(rt, module)?;
    let table = module
        .span(TABLE)
        .context("the module has no table of segments")?;
    let Span { low, high } = table;
    println!(rt; "Global {TABLE}, the table of segments, lies from address {low} up to {high}.")?;
    tell_bent(rt)?;
    Ok(table)
}
