// A record of the list of code. x, y and z are locals of the function.
ghost use Rattle.content.specs.Records.{instruction_from, instruction_words};
ghost use Rattle.content.specs.inside.Faithful.{instruction_faithful};
ghost use Rattle.std.proofs.Common.{rules};

use records::record::Record;

#[derive(Clone, Copy, PartialEq, Eq)]
pub enum Instruction {
    Set { x: u32, n: u32 },
    Add { x: u32, y: u32, z: u32 },
    Subtract { x: u32, y: u32, z: u32 },
    Less { x: u32, y: u32, z: u32 },
    Cast { x: u32, y: u32 },
    Jump { to: u32 },
    Branch { x: u32, to: u32 },
    Function { x: u32, function: u32 },
    Global { x: u32, global: u32 },
    Allocate { x: u32, y: u32 },
    Move { x: u32, y: u32, z: u32 },
    Field { x: u32, y: u32, field: u32 },
    Load { x: u32, y: u32 },
    Store { x: u32, y: u32 },
    Call { function: u32 },
    CallThrough { x: u32 },
    Return,
}

impl Record<4> for Instruction {
    ghost meant = { instruction_from };

    ghost spelt = { instruction_words };

    ghost narrow = { Prim.search rules };

    ghost long = { Prim.search rules };

    ghost faithful = { instruction_faithful };

    fn read(words: &[u32; 4]) -> Option<Instruction> {
        match *words {
            [0, x, n, 0] => Some(Instruction::Set { x, n }),
            [1, x, y, z] => Some(Instruction::Add { x, y, z }),
            [2, x, y, z] => Some(Instruction::Subtract { x, y, z }),
            [3, x, y, z] => Some(Instruction::Less { x, y, z }),
            [4, x, y, 0] => Some(Instruction::Cast { x, y }),
            [5, to, 0, 0] => Some(Instruction::Jump { to }),
            [6, x, to, 0] => Some(Instruction::Branch { x, to }),
            [7, x, function, 0] => Some(Instruction::Function { x, function }),
            [8, x, global, 0] => Some(Instruction::Global { x, global }),
            [9, x, y, 0] => Some(Instruction::Allocate { x, y }),
            [10, x, y, z] => Some(Instruction::Move { x, y, z }),
            [11, x, y, field] => Some(Instruction::Field { x, y, field }),
            [12, x, y, 0] => Some(Instruction::Load { x, y }),
            [13, x, y, 0] => Some(Instruction::Store { x, y }),
            [14, function, 0, 0] => Some(Instruction::Call { function }),
            [15, x, 0, 0] => Some(Instruction::CallThrough { x }),
            [16, 0, 0, 0] => Some(Instruction::Return),
            _ => None,
        }
    }

    fn write(self) -> [u32; 4] {
        match self {
            Instruction::Set { x, n } => [0, x, n, 0],
            Instruction::Add { x, y, z } => [1, x, y, z],
            Instruction::Subtract { x, y, z } => [2, x, y, z],
            Instruction::Less { x, y, z } => [3, x, y, z],
            Instruction::Cast { x, y } => [4, x, y, 0],
            Instruction::Jump { to } => [5, to, 0, 0],
            Instruction::Branch { x, to } => [6, x, to, 0],
            Instruction::Function { x, function } => [7, x, function, 0],
            Instruction::Global { x, global } => [8, x, global, 0],
            Instruction::Allocate { x, y } => [9, x, y, 0],
            Instruction::Move { x, y, z } => [10, x, y, z],
            Instruction::Field { x, y, field } => [11, x, y, field],
            Instruction::Load { x, y } => [12, x, y, 0],
            Instruction::Store { x, y } => [13, x, y, 0],
            Instruction::Call { function } => [14, function, 0, 0],
            Instruction::CallThrough { x } => [15, x, 0, 0],
            Instruction::Return => [16, 0, 0, 0],
        }
    }
}
