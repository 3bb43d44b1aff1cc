// `k4 show FILE`: what a module says, for a person to read.
use crate::image_file::read_module;
use content::function::Function;
use content::instruction::Instruction;
use content::kind::Kind;
use module::module::Module;
use parts::lists::Lists;
use std::process::ExitCode;

fn mark(sensitive: bool) -> &'static str {
    if sensitive { ", sensitive" } else { "" }
}

// The records of a list from `first` on, `count` of them or as many as there are.
fn part<R>(list: &[R], first: u32, count: u32) -> &[R] {
    let rest = list.get(first as usize..).unwrap_or(&[]);
    &rest[..rest.len().min(count as usize)]
}

// `rt` and what is shown go to each function that prints: a struct of them would only add `self.` to each.

fn show_fields(rt: &HostRuntime, lists: &Lists, first: u32, count: u32) -> anyhow::Result<()> {
    for (k, field) in part(lists.fields, first, count).iter().enumerate() {
        let kind = field.kind;
        println!(rt; "  field {k}: type {kind}")?;
    }
    Ok(())
}

fn show_types(rt: &HostRuntime, module: &Module) -> anyhow::Result<()> {
    let lists = module.lists();
    for (t, kind) in (0u32..).zip(lists.types) {
        let marked = mark(module.is_sensitive(t));
        println!(rt; "type {t}: {kind}{marked}")?;
        if let Kind::Fields { first, count } = *kind {
            show_fields(rt, &lists, first, count)?;
        }
    }
    Ok(())
}

fn show_globals(rt: &HostRuntime, module: &Module) -> anyhow::Result<()> {
    for (g, global) in (0u32..).zip(module.lists().globals) {
        let (kind, count) = (global.kind, global.count);
        if let Some(span) = module.span(g) {
            let (low, high) = (span.low, span.high);
            println!(rt; "global {g}: {count} of type {kind}, from address {low} up to {high}")?;
        }
    }
    let heap = module.heap();
    println!(rt; "heap: from address {heap}")?;
    Ok(())
}

// Whether an instruction of the function jumps to place `i`.
fn is_target(lists: &Lists, f: &Function, i: usize) -> bool {
    let code = lists.code.iter().skip(f.first as usize);
    code.take(f.count as usize)
        .any(|instruction| match *instruction {
            Instruction::Jump { to } | Instruction::Branch { to, .. } => to as usize == i,
            _ => false,
        })
}

fn show_locals(rt: &HostRuntime, module: &Module, f: &Function) -> anyhow::Result<()> {
    let lists = module.lists();
    for (x, local) in part(lists.locals, f.first_local, f.locals)
        .iter()
        .enumerate()
    {
        let kind = local.kind;
        let marked = mark(module.is_sensitive(kind));
        println!(rt; "  x{x}: type {kind}{marked}")?;
    }
    Ok(())
}

fn show_code(rt: &HostRuntime, lists: &Lists, f: &Function) -> anyhow::Result<()> {
    for (i, instruction) in part(lists.code, f.first, f.count).iter().enumerate() {
        let arrow = if is_target(lists, f, i) { ">" } else { " " };
        println!(rt; "{arrow} {i}: {instruction}")?;
    }
    Ok(())
}

fn show_functions(rt: &HostRuntime, module: &Module) -> anyhow::Result<()> {
    let lists = module.lists();
    for (number, f) in lists.functions.iter().enumerate() {
        let first = f.first;
        println!(rt; "function {number}: from instruction {first} of the code")?;
        show_locals(rt, module, f)?;
        show_code(rt, &lists, f)?;
    }
    Ok(())
}

pub(crate) fn show_file(rt: &HostRuntime, path: &str) -> anyhow::Result<ExitCode> {
    let mut module = Module::new();
    if !read_module(rt, path, &mut module)? {
        return Ok(ExitCode::FAILURE);
    }
    let lists = module.lists();
    let (memory, depth) = (lists.memory, lists.depth);
    let frames = module.frames();
    println!(rt; "memory: {memory} words")?;
    println!(rt; "depth: {depth}, so {frames} frames")?;
    show_types(rt, &module)?;
    show_globals(rt, &module)?;
    show_functions(rt, &module)?;
    Ok(ExitCode::SUCCESS)
}
