// `k4 state FILE`: which functions a run of the module can enter, and what is promised of it.
use crate::image_file::read_module;
use enterable::finding::enterable;
use enterable::leading::first_site;
use enterable::way::{Site, Way};
use module::module::Module;
use std::fmt;
use std::process::ExitCode;

// Why a function can be entered.
#[derive(Clone, Copy)]
enum Reason {
    First,
    Called(Site),
    Taken(Site),
}

impl fmt::Display for Reason {
    fn fmt<W: fmt::Write>(&self, f: &mut fmt::Formatter<W>) -> fmt::Result {
        match self {
            Reason::First => f.write_str("every run begins in it"),
            Reason::Called(Site { function, place }) => {
                write!(f, "function {function} calls it at place {place}")
            }
            Reason::Taken(Site { function, place }) => write!(
                f,
                "through a pointer, as function {function} takes its address at place {place}"
            ),
        }
    }
}

// The first reason of each kind.
fn tell_reasons(rt: &HostRuntime, module: &Module, number: u32) -> anyhow::Result<()> {
    let reasons = [
        (number == 0).then_some(Reason::First),
        first_site(module, Way::Call, number).map(Reason::Called),
        first_site(module, Way::Address, number).map(Reason::Taken),
    ];
    for (k, reason) in reasons.iter().flatten().enumerate() {
        let before = if k == 0 { ":" } else { ";" };
        print!(rt; "{before} {reason}")?;
    }
    Ok(())
}

fn tell_functions(rt: &HostRuntime, module: &Module) -> anyhow::Result<()> {
    let found = enterable(module);
    for (number, _function) in (0u32..).zip(module.lists().functions) {
        if found.enters(number) {
            print!(rt; "function {number} can be entered")?;
            tell_reasons(rt, module, number)?;
            rt.print("\n")?;
        } else {
            println!(rt; "function {number} can't be entered")?;
        }
    }
    Ok(())
}

// What `Run::begin` promises of the functions told above.
const PROMISE: &str =
    "Promised of every run of this module, whatever the panel writes into the memory between two calls, on every store, and for all sequences of calls of step and go: it enters no function but those that can be entered, and through a pointer none but those told so. Not promised is anything of time, of heat, of what the panel shows, of what is written while a call is under way, or of a module that is refused; nor that a run goes on: it may stop, and says why.\n";

pub(crate) fn state_file(rt: &HostRuntime, path: &str) -> anyhow::Result<ExitCode> {
    let mut module = Module::new();
    if !read_module(rt, path, &mut module)? {
        return Ok(ExitCode::FAILURE);
    }
    tell_functions(rt, &module)?;
    rt.print(PROMISE)?;
    Ok(ExitCode::SUCCESS)
}
