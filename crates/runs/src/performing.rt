// The instruction whose turn it is.
ghost use Rattle.machine.specs.Machine.{make};
ghost use Rattle.runs.specs.inside.Entering.{LocalsBelow};
ghost use Rattle.runs.specs.inside.Making.{Going, Tried};

use crate::entered::Entered;
use crate::run::Live;
use content::instruction::Instruction;
use machine::event::{Event, EventKind};
use machine::held::Held;
use machine::refusal::Stop;
use machine::value::Value;
use stores::store::Store;
use values::marked::Marked;

impl<S: Store<Entry = Marked>> Live<S> {
    pub(crate) fn perform(
        &mut self,
        on: &Entered,
        place: &mut u32,
        memory: &mut [u32],
        instruction: Instruction,
    ) -> Result<Event, Stop>
        requires going { Going S.entry S.taken on.now self.old place.old memory.old }
        requires below { LocalsBelow instruction }
        ensures { Tried S.entry S.taken S.kept (λ m s f rest. make m s f rest instruction) on.now self.old place.old memory.old result self.new place.new memory.new }
    {
        match instruction {
            Instruction::Set { x, n } => Ok(self.set_number(on, place, memory, x, n)),
            Instruction::Add { x, y, z } => Ok(self.add(on, place, memory, x, y, z)),
            Instruction::Subtract { x, y, z } => Ok(self.subtract(on, place, memory, x, y, z)),
            Instruction::Less { x, y, z } => Ok(self.less(on, place, memory, x, y, z)),
            Instruction::Cast { x, y } => Ok(self.cast(on, place, memory, x, y)),
            Instruction::Jump { to } => Ok(self.jump(on, place, memory, to)),
            Instruction::Branch { x, to } => Ok(self.branch(on, place, memory, x, to)),
            Instruction::Function { x, function } => {
                Ok(self.set(
                    on,
                    place,
                    memory,
                    x,
                    Held::of(Value::Marked(Marked::Code(function))),
                ))
            }
            Instruction::Global { x, global } => Ok(self.point_at(on, place, memory, x, global)),
            Instruction::Allocate { x, y } => self.allocate(on, place, memory, x, y),
            Instruction::Move { x, y, z } => Ok(self.move_by(on, place, memory, x, y, z)),
            Instruction::Field { x, y, field } => self.field(on, place, memory, x, y, field),
            Instruction::Load { x, y } => self.load(on, place, memory, x, y),
            Instruction::Store { x, y } => self.store(on, place, memory, x, y),
            Instruction::Call { function } => self.enter(
                on,
                place,
                memory,
                EventKind::Called,
                function,
            ),
            Instruction::CallThrough { x } => self.enter_through(on, place, memory, x),
            Instruction::Return => Ok(self.leave(on, place, memory)),
        }
    }
}
