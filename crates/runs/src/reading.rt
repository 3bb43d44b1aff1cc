// What is told of a run.
ghost use Rattle.std.specs.Prelude.{◌≡◌, length, None, if◌then◌else◌, nat_lt};
ghost use Rattle.std.specs.List.{slice_get};
ghost use Rattle.std.specs.Option.{option_map};
ghost use Rattle.module.specs.Modules.{said};
ghost use Rattle.machine.specs.Statuses.{status_of};

use crate::run::Run;
use machine::frame::Frame;
use machine::status::Status;
use module::module::Module;
use stores::store::Store;
use values::marked::Marked;

impl<S> Run<S> {
    pub fn module(&self) -> &Module
        ensures { result.now ≡ self.now.module }
    {
        &self.module
    }

    // How many frames stand.
    pub fn depth(&self) -> usize
        ensures { result ≡ length self.now.live.stack }
    {
        self.live.stack.len()
    }

    // The frame that stands k below the newest.
    pub fn frame(&self, k: usize) -> Option<&Frame>
        ensures { option_map (λ f. f.now) result ≡ slice_get self.now.live.stack k }
    {
        self.live.stack.get(k)
    }

    pub fn status(&self) -> Status
        ensures { result ≡ status_of self.now.stopped self.now.live.stack }
    {
        if self.stopped {
            Status::Stopped
        } else if self.live.stack.len() == 0 {
            Status::Ended
        } else {
            Status::Running
        }
    }
}

impl<S: Store<Entry = Marked>> Run<S> {
    // What the store holds at an address below the memory size.
    pub fn entry(&self, a: u32) -> Option<Marked>
        ensures { result ≡ (if nat_lt a (said self.now.module).memory then S.entry self.now.live.store a else None) }
    {
        if a < self.module.memory() {
            self.live.store.get(a)
        } else {
            None
        }
    }
}
