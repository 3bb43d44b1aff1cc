// The user's tool of the K4 controller.
#![tactic(auto)]

mod image_file;
mod judge;
mod show;
mod state;

use anyhow::anyhow;
use desk::desk::Desk;
use desk::told::Told;
use judge::judge_file;
use show::show_file;
use state::state_file;
use std::env;
use std::io::Read;
use std::process::ExitCode;
use words::text::Lines;

const HELP: &str =
    "usage: k4 replay < SCRIPT\n       k4 judge FILE\n       k4 show FILE\n       k4 state FILE\n       k4 help\n\nreplay  does the calls of a script, line by line, and writes what they answered\n        k4 replay < firing.script > firing.transcript\njudge   says whether the module image in FILE is accepted, and if not, why\n        k4 judge kiln.image\nshow    writes what the module says, for a person to read\n        k4 show kiln.image\nstate   says which functions a run of the module can enter, and what is promised of it\n        k4 state kiln.image\nhelp    writes this\n        k4 help\n";

// Does the script from standard input and writes its transcript.
fn replay(rt: &HostRuntime) -> anyhow::Result<()> {
    let heap = rt.alloc();
    let mut script = Vec::new(heap);
    rt.stdin().read_to_end(&mut script)?;
    let mut desk = Desk::new(heap);
    for (number, line) in (1u64..).zip(Lines::of(&script)) {
        match desk.reply(heap, number, line)? {
            // To print nothing would cost as much as a short answer.
            Told::Silent => {}
            told => rt.print(told)?,
        }
    }
    Ok(())
}

// Not by an error, which has no room for a long word.
fn no_command(rt: &HostRuntime, command: &str) -> anyhow::Result<ExitCode> {
    eprintln!(rt; "k4: '{command}' is no command; 'k4 help' lists them")?;
    Ok(ExitCode::FAILURE)
}

// A command on the file that the next word names.
fn on_file(rt: &HostRuntime, command: &str, path: &str) -> anyhow::Result<ExitCode> {
    match command {
        "judge" => judge_file(rt, path),
        "show" => show_file(rt, path),
        "state" => state_file(rt, path),
        _ => no_command(rt, command),
    }
}

fn on_words(rt: &HostRuntime, command: &str, path: Option<&str>) -> anyhow::Result<ExitCode> {
    match (command, path) {
        ("help", _) => {
            rt.print(HELP)?;
            Ok(ExitCode::SUCCESS)
        }
        ("replay", _) => {
            replay(rt)?;
            Ok(ExitCode::SUCCESS)
        }
        (_, Some(path)) => on_file(rt, command, path),
        ("judge" | "show" | "state", None) => Err(anyhow!(
            "'{command}' wants a file: k4 {command} FILE"
        )),
        _ => no_command(rt, command),
    }
}

fn run(rt: &HostRuntime) -> anyhow::Result<ExitCode> {
    let mut words = env::args(rt)?;
    let _program = words.next();
    let Some(command) = words.next() else {
        rt.print(HELP)?;
        return Ok(ExitCode::SUCCESS);
    };
    let path = words.next();
    on_words(
        rt,
        command.as_str(),
        path.as_ref().map(|path| path.as_str()),
    )
}

fn main(rt: HostRuntime) -> ExitCode {
    match run(&rt) {
        Ok(code) => code,
        Err(error) => {
            // Where standard error fails too, the status still tells.
            let _ = eprintln!(rt; "k4: {error:#}");
            ExitCode::FAILURE
        }
    }
}
