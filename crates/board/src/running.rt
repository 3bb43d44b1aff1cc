// The lines about the run.
ghost use Rattle.std.specs.Prelude.{◌≡◌, replicate, take, vec_items, IfOk, Ok, Result, List};
ghost use Rattle.std.specs.declared.alloc.Global.{Global};
ghost use Rattle.std.specs.declared.vec.Vec.{Vec};
ghost use Rattle.machine.specs.Events.{other};
ghost use Rattle.machine.specs.Goes.{Go};
ghost use Rattle.machine.specs.Machine.{Step};
ghost use Rattle.machine.specs.declared.gone.Gone.{Gone};
ghost use Rattle.machine.specs.declared.refusal.NotReady.{NotReady};
ghost use Rattle.machine.specs.declared.refusal.Refusal.{Refusal};
ghost use Rattle.run_lines.specs.declared.line.RunLine.TheVariants as line;
ghost use Rattle.board.specs.Runs.{BegunWith, Moved, Ran, WentSo};
ghost use Rattle.board.specs.declared.report.Report.TheVariants as tells;

use crate::board::Board;
use crate::report::Report;
use machine::event::{Event, OTHER};
use module::module::Module;
use run_lines::line::RunLine;
use runs::run::Run;
use std::alloc::{AllocError, Global};
use stores::store::Store;
use values::marked::Marked;

fn begun<S: Store<Entry = Marked>>(of: &Module, store: S) -> Run<S>
    ensures { BegunWith S.entry S.taken S.kept of.now store result }
{
    Run::begin(of, store)
}

fn step_on<S: Store<Entry = Marked>>(run: &mut Run<S>, memory: &mut [u32]) -> Report
    ensures { (answer : Result Event Refusal) × (result ≡ tells.Stepped answer) × Moved S.entry S.taken S.kept (λ s s'. Step run.old.module s answer s') run.old memory.old run.new memory.new }
{
    Report::Stepped(run.step(memory))
}

// So many events, to be written over.
fn room_for(heap: Global, most: u32) -> Result<Vec<Event>, AllocError>
    ensures { IfOk result (λ v. vec_items v ≡ replicate most other) }
{
    vec![in heap; OTHER; most as usize]
}

// Of the list, only the events of the steps that were made are told.
fn go_on<S: Store<Entry = Marked>>(run: &mut Run<S>, memory: &mut [u32], room: Vec<Event>) -> Report
    ensures { (answer : Result Gone NotReady) × (events : List Event) × WentSo answer events result × Moved S.entry S.taken S.kept (λ s s'. Go run.old.module s (vec_items room) answer s' events) run.old memory.old run.new memory.new }
{
    let mut events = room;
    match run.go(memory, events.as_mut_slice()) {
        Ok(gone) => {
            events.truncate(gone.made);
            Report::Went(Ok(gone), events)
        }
        Err(why) => Report::Went(Err(why), events),
    }
}

impl<S: Store<Entry = Marked> + Drop> Board<S> {
    // The run takes the loose store for itself, and any earlier run is gone. It stands alone, as whole modules are moved here, and no other line should pay for the room.
    #[inline(never)]
    fn begin(&mut self) -> Report
        ensures { Ran S.entry S.taken S.kept self.old (Ok result) self.new line.Begin }
    {
        match self.loose.take() {
            Some(store) => {
                self.run = Some(begun(&self.module, store));
                Report::Begun
            }
            None => Report::NoStore,
        }
    }

    fn step(&mut self) -> Report
        ensures { Ran S.entry S.taken S.kept self.old (Ok result) self.new line.Step }
    {
        match &mut self.run {
            Some(run) => step_on(run, self.memory.as_mut_slice()),
            None => Report::NoRun,
        }
    }

    // Makes at most so many steps. Fails only for want of memory, and then changes nothing.
    fn go(&mut self, heap: Global, most: u32) -> Result<Report, AllocError>
        ensures { Ran S.entry S.taken S.kept self.old result self.new (line.Go most) }
    {
        match &mut self.run {
            Some(run) => {
                let room = room_for(heap, most)?;
                Ok(go_on(run, self.memory.as_mut_slice(), room))
            }
            None => Ok(Report::NoRun),
        }
    }

    fn status(&self) -> Report
        ensures { Ran S.entry S.taken S.kept self.now (Ok result) self.now line.Status }
    {
        match &self.run {
            Some(run) => Report::Stands(run.status()),
            None => Report::NoRun,
        }
    }

    // Does what the line asks for. Fails only for want of memory, and then changes nothing.
    pub fn run(&mut self, heap: Global, line: RunLine) -> Result<Report, AllocError>
        ensures { Ran S.entry S.taken S.kept self.old result self.new line }
    {
        match line {
            RunLine::Begin => Ok(self.begin()),
            RunLine::Memory(words) => self.resize(heap, words),
            RunLine::Poke(a, word) => Ok(self.poke(a, word)),
            RunLine::Peek(a) => Ok(self.peek(a)),
            RunLine::Digest => Ok(self.digest()),
            RunLine::Step => Ok(self.step()),
            RunLine::Go(most) => self.go(heap, most),
            RunLine::Frames => self.frames(heap),
            RunLine::Entries => self.entries(heap),
            RunLine::Status => Ok(self.status()),
        }
    }
}
