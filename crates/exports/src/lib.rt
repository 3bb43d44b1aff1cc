//! Runs, begins and orders to stores for a caller in C: functions on numbers and slices, by which bench/run measures.
#![tactic(auto)]

ghost use Rattle.std.specs.Prelude.{◌≡◌, ◌*◌};
ghost use Rattle.exports.specs.Answers.{Answered};
ghost use Rattle.exports.specs.Runs.{HasBegun, HasRun, NotBegun, NotRun};
ghost use Rattle.exports.specs.Stores.{NoStore};
ghost use Rattle.exports.specs.Orders.{HasObeyed};

use crate::obeying::obey;
use crate::running::{begin, run};
use crate::undone::Undone;
use std::alloc::Global;

mod obeying;
mod running;
mod stores_made;
mod undone;

// Reads an image, begins a run on a new store, and goes on in slices. Answers how many steps were made, or why none was.
#[unsafe(no_mangle)]
pub extern "C" fn k4_run(
    heap: Global,
    image: &[u8],
    kind: u32,
    slots: usize,
    memory: &mut [u32],
    events: u32,
    slices: u32,
) -> u64
    ensures { Answered (λ n. HasRun image.now kind slots memory.old (slices * events) n memory.new) (λ k. NotRun image.now kind memory.old k × (memory.new ≡ memory.old)) result }
{
    match run(heap, image, kind, slots, memory, events, slices) {
        Ok(made) => made,
        Err(undone) => undone.answer(),
    }
}

// Reads an image, makes a store and begins a run. Answers how many frames stand.
#[tactic(auto, using(crate::proofs::Undoing::not_begun))]
#[unsafe(no_mangle)]
pub extern "C" fn k4_begin(heap: Global, image: &[u8], kind: u32, slots: usize) -> u64
    ensures { Answered (λ n. HasBegun image.now kind slots n) (λ k. NotBegun image.now kind k) result }
{
    match begin(heap, image, kind, slots) {
        Ok(frames) => frames,
        Err(undone) => undone.answer(),
    }
}

// Makes a store and does orders. Answers the sum of what was got.
#[tactic(auto, using(crate::proofs::Undoing::no_store))]
#[unsafe(no_mangle)]
pub extern "C" fn k4_obey(heap: Global, kind: u32, slots: usize, orders: &[u32]) -> u64
    ensures { Answered (λ n. HasObeyed kind slots orders.now n) (λ k. NoStore kind k) result }
{
    match obey(heap, kind, slots, orders) {
        Ok(sum) => sum as u64,
        Err(undone) => undone.answer(),
    }
}
