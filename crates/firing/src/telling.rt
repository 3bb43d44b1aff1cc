// What took place in a firing.
use crate::entered::Entered;
use crate::firing::Firing;
use crate::segment::{Function, Segment, TABLE};
use anyhow::{Context, anyhow};
use machine::event::Event;
use std::alloc::{AllocError, Global};
use stores::store::Store;
use tables::places::Span;
use values::marked::Marked;

impl<S: Store<Entry = Marked> + Drop> Firing<S> {
    pub(crate) fn entered(&self, heap: Global) -> Result<Vec<Entered>, AllocError> {
        self.events.iter().filter_map(Entered::of).collect(heap)
    }

    pub(crate) fn decisions(&self, heap: Global) -> Result<Vec<Event>, AllocError> {
        self.events
            .iter()
            .copied()
            .filter(|event| event.kind.decides())
            .collect(heap)
    }

    // The function whose number the memory has at an address.
    fn said(&self, a: u32) -> anyhow::Result<Function> {
        let word = self.memory.get(a as usize).context("no such address")?;
        Ok(Function(*word))
    }

    // The function that the store holds at an address.
    fn held(&self, a: u32) -> anyhow::Result<Function> {
        match self.run.entry(a) {
            Some(Marked::Code(function)) => Ok(Function(function)),
            _ => Err(anyhow!("the store holds no function at address {a}")),
        }
    }

    fn tell_segment(&self, rt: &HostRuntime, a: u32, segment: Segment) -> anyhow::Result<()> {
        let (said, held) = (self.said(a)?, self.held(a)?);
        let stayed = if held == segment.into() {
            "stayed"
        } else {
            "did not stay"
        };
        println!(rt;
            "  '{segment}' {stayed} '{segment}': at address {a} the memory says {said}, the store holds {held}"
        )?;
        Ok(())
    }

    // The places of the table whose functions weren't entered.
    fn tell_unused(&self, rt: &HostRuntime) -> anyhow::Result<()> {
        let entered = self.entered(rt.alloc())?;
        for (place, segment) in TABLE.into_iter().enumerate() {
            let function = segment.into();
            if !entered.iter().any(|entry| entry.function() == function) {
                println!(rt;
                    "Place {place} of the table, '{segment}', was never used: its function wasn't entered."
                )?;
            }
        }
        Ok(())
    }

    // The table of segments lies at `at`.
    pub(crate) fn tell(&self, rt: &HostRuntime, at: Span) -> anyhow::Result<()> {
        let steps = self.events.len();
        let status = self.run.status();
        println!(rt; "After {steps} steps the run is {status}. It entered these functions:")?;
        for (before, event) in self.events.iter().enumerate() {
            if let Some(entered) = Entered::of(event) {
                println!(rt; "  after {before} steps {entered}")?;
            }
        }
        println!(rt; "The table of segments, in the memory and in the store:")?;
        for (a, segment) in (at.low..at.high).zip(TABLE) {
            self.tell_segment(rt, a, segment)?;
        }
        self.tell_unused(rt)
    }
}
