// A firing goes on, beside a panel.
use crate::panel::Panel;
use anyhow::anyhow;
use machine::event::{Event, OTHER};
use machine::status::Status;
use module::module::Module;
use runs::run::Run;
use std::alloc::{AllocError, Global};
use stores::store::Store;
use values::marked::Marked;

// Steps in a slice.
pub(crate) const SLICE: usize = 8;

// The slice that the panel writes before: the table is filled then, and no segment has begun.
const BENT_BEFORE: usize = 2;

// More slices, and more steps, than a firing has.
const MOST: usize = 1000;

// A run of the kiln's module.
#[derive(Drop)]
pub(crate) struct Firing<S> {
    pub(crate) run: Run<S>,
    pub(crate) memory: Vec<u32>,
    // Of the steps that were made.
    pub(crate) events: Vec<Event>,
}

impl<S: Store<Entry = Marked> + Drop> Firing<S> {
    pub(crate) fn begin(heap: Global, module: &Module, store: S) -> Result<Firing<S>, AllocError> {
        Ok(Firing {
            run: Run::begin(module, store),
            memory: vec![in heap; 0u32; module.memory() as usize]?,
            events: Vec::new(heap),
        })
    }

    fn is_running(&self) -> bool {
        self.run.status() == Status::Running
    }

    // To its end in slices, with one write of the panel between two of them.
    pub(crate) fn go_in_slices(&mut self, rt: &HostRuntime, panel: Panel) -> anyhow::Result<()> {
        let mut slice = [OTHER; SLICE];
        for k in 0..MOST {
            if !self.is_running() {
                break;
            }
            if k == BENT_BEFORE {
                panel.write(&mut self.memory);
                let steps = self.events.len();
                println!(rt; "After {steps} steps the panel wrote {panel}.")?;
            }
            let gone = self.run.go(&mut self.memory, &mut slice).map_err(|refusal| anyhow!(
                "a slice is refused, {}",
                u32::from(refusal)
            ))?;
            self.events.extend(slice.iter().take(gone.made).copied())?;
        }
        Ok(())
    }

    // To its end step by step, with a write of the panel before each.
    pub(crate) fn go_by_steps(&mut self, rt: &HostRuntime, panel: Panel) -> anyhow::Result<()> {
        for _ in 0..MOST {
            if !self.is_running() {
                break;
            }
            panel.write(&mut self.memory);
            let event = self.run.step(&mut self.memory).map_err(|refusal| anyhow!(
                "a step isn't made, {}",
                refusal.number()
            ))?;
            self.events.push(event)?;
        }
        let steps = self.events.len();
        println!(rt; "Before each of {steps} steps the panel wrote {panel}.")?;
        Ok(())
    }
}
