// The lines that list what a run holds.
ghost use Rattle.std.specs.Prelude.{◌≡◌, [], flat_map, length, reverse, IfOk, string_bytes};
ghost use Rattle.std.specs.List.{slice_get};
ghost use Rattle.std.specs.Option.{option_map_or};
ghost use Rattle.module.specs.Modules.{said};
ghost use Rattle.run_lines.specs.declared.line.RunLine.TheVariants as line;
ghost use Rattle.board.specs.Runs.{AreLines, Ran};
ghost use Rattle.board.specs.Shown.{entries_text, entry_line, frame_line, frames_text, held};

use crate::board::Board;
use crate::listed::Locals;
use crate::report::Report;
use machine::frame::Frame;
use runs::run::Run;
use std::alloc::{AllocError, Global};
use stores::store::Store;
use values::marked::Marked;

fn frame_line(heap: Global, frame: &Frame) -> Result<String, AllocError>
    ensures { IfOk result (λ s. string_bytes s ≡ frame_line frame.now) }
{
    let function = frame.function;
    let place = frame.place;
    let locals = Locals(frame.locals.as_slice());
    format!(in heap; "frame {function} {place}{locals}\n")
}

// Nothing where no frame stands so far below the newest.
fn line_at<S>(heap: Global, run: &Run<S>, k: usize) -> Result<String, AllocError>
    ensures { IfOk result (λ s. string_bytes s ≡ option_map_or frame_line (slice_get run.now.live.stack k) []) }
{
    match run.frame(k) {
        Some(frame) => frame_line(heap, frame),
        None => Ok(String::new(heap)),
    }
}

// The oldest first.
#[tactic(auto, using(crate::proofs::Lines::one_frame))]
fn frame_lines<S>(heap: Global, run: &Run<S>) -> Result<String, AllocError>
    ensures { IfOk result (λ s. string_bytes s ≡ flat_map frame_line (reverse run.now.live.stack)) }
{
    let depth = run.depth();
    let mut text = String::new(heap);
    for i in 0..depth {
        let line = line_at(heap, run, depth - 1 - i)?;
        text.push_str(line.as_str())?;
    }
    Ok(text)
}

fn frames_text<S>(heap: Global, run: &Run<S>) -> Result<String, AllocError>
    ensures { IfOk result (λ s. string_bytes s ≡ frames_text run.now.live.stack) }
{
    let lines = frame_lines(heap, run)?;
    let depth = run.depth();
    format!(in heap; "frames {depth}\n{lines}")
}

#[tactic(auto, using(crate::proofs::Lines::listed))]
fn list_frames<S>(heap: Global, run: &Run<S>) -> Result<Report, AllocError>
    ensures { IfOk result (AreLines (frames_text run.now.live.stack)) }
{
    Ok(Report::Lines(frames_text(heap, run)?))
}

// Nothing where nothing is held.
fn entry_line(heap: Global, a: u32, entry: Option<Marked>) -> Result<String, AllocError>
    ensures { IfOk result (λ s. string_bytes s ≡ option_map_or (λ v. entry_line (a, v)) entry []) }
{
    match entry {
        Some(value) => format!(in heap; "entry {a} {value}\n"),
        None => Ok(String::new(heap)),
    }
}

// The lines, and how many they are.
#[tactic(auto, using(crate::proofs::Lines::below_is, crate::proofs::Lines::one_line, crate::proofs::Lines::one_held))]
fn entry_lines<S: Store<Entry = Marked>>(
    heap: Global,
    run: &Run<S>,
) -> Result<(u32, String), AllocError>
    ensures count { IfOk result (λ p. p.0 ≡ length (held (S.entry run.now.live.store) (said run.now.module).memory)) }
    ensures lines { IfOk result (λ p. string_bytes p.1 ≡ flat_map entry_line (held (S.entry run.now.live.store) (said run.now.module).memory)) }
{
    let memory = run.module().memory();
    let mut count: u32 = 0;
    let mut text = String::new(heap);
    for a in 0..memory {
        let entry = run.entry(a);
        count += u32::from(entry.is_some());
        let line = entry_line(heap, a, entry)?;
        text.push_str(line.as_str())?;
    }
    Ok((count, text))
}

fn entries_text<S: Store<Entry = Marked>>(heap: Global, run: &Run<S>) -> Result<String, AllocError>
    ensures { IfOk result (λ s. string_bytes s ≡ entries_text (S.entry run.now.live.store) (said run.now.module).memory) }
{
    let (count, lines) = entry_lines(heap, run)?;
    format!(in heap; "entries {count}\n{lines}")
}

#[tactic(auto, using(crate::proofs::Lines::listed))]
fn list_entries<S: Store<Entry = Marked>>(heap: Global, run: &Run<S>) -> Result<Report, AllocError>
    ensures { IfOk result (AreLines (entries_text (S.entry run.now.live.store) (said run.now.module).memory)) }
{
    Ok(Report::Lines(entries_text(heap, run)?))
}

impl<S: Store<Entry = Marked>> Board<S> {
    pub(crate) fn frames(&self, heap: Global) -> Result<Report, AllocError>
        ensures { Ran S.entry S.taken S.kept self.now result self.now line.Frames }
    {
        match &self.run {
            Some(run) => list_frames(heap, run),
            None => Ok(Report::NoRun),
        }
    }

    pub(crate) fn entries(&self, heap: Global) -> Result<Report, AllocError>
        ensures { Ran S.entry S.taken S.kept self.now result self.now line.Entries }
    {
        match &self.run {
            Some(run) => list_entries(heap, run),
            None => Ok(Report::NoRun),
        }
    }
}
