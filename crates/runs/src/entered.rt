// What is known of the newest frame's function, looked up once while it is the newest.
ghost use Rattle.std.specs.Prelude.{◌≡◌, ◌<◌, false, length, nat_lt};
ghost use Rattle.machine.specs.Machine.{sensitive, size};
ghost use Rattle.stack.specs.Stack.{newest};
ghost use Rattle.runs.specs.inside.Entering.{leaves};
ghost use Rattle.runs.specs.inside.Making.{IsNewest};

use crate::run::Live;
use content::instruction::Instruction;
use machine::event::EventKind;
use module::module::Module;
use tables::layout::Local;

#[derive(Clone, Copy)]
pub(crate) struct Entered<'a> {
    pub(crate) module: &'a Module,
    pub(crate) code: &'a [Instruction],
    pub(crate) layout: &'a [Local; 8],
}

// After a step of this kind another frame is the newest, or none is.
pub(crate) fn leaves(kind: EventKind) -> bool
    ensures { result ≡ leaves kind }
{
    matches!(
        kind,
        EventKind::Called | EventKind::CalledThrough | EventKind::Returned | EventKind::Ended
    )
}

impl<S> Live<S> {
    pub(crate) fn entered<'a>(&self, program: &'a Module) -> Entered<'a>
        ensures known { IsNewest result self.now }
        ensures lent { result.module.now ≡ program.now }
    {
        let function = self.stack.function();
        Entered {
            module: program,
            code: program.code(function),
            layout: program.layout(function),
        }
    }

    // Whether a frame stands after a step of this kind; it is looked for only where one may have gone.
    pub(crate) fn stands_after(&self, kind: EventKind) -> bool
        requires { leaves kind ≡ false → 0 < length self.now.stack }
        ensures { result ≡ nat_lt 0 (length self.now.stack) }
    {
        if leaves(kind) {
            self.stack.len() > 0
        } else {
            true
        }
    }

    pub(crate) fn is_sensitive(&self, on: &Entered, x: u32) -> bool
        requires newest { IsNewest on.now self.now }
        requires below { x < 8 }
        ensures { result ≡ sensitive on.now.module.now (newest self.now.stack) x }
    {
        on.layout[x as usize].sensitive
    }

    // How many words that which local x points at takes; none where that has no size.
    pub(crate) fn size(&self, on: &Entered, x: u32) -> u32
        requires newest { IsNewest on.now self.now }
        requires below { x < 8 }
        ensures { result ≡ size on.now.module.now (newest self.now.stack) x }
    {
        on.layout[x as usize].size.unwrap_or(0)
    }
}
