// Types and instructions in words.
ghost use Rattle.std.specs.Prelude.{Some};
ghost use Rattle.content.specs.Records.{kind_row, instruction_row};

use crate::instruction::Instruction;
use crate::kind::Kind;
use std::fmt;

impl fmt::Display for Kind {
    ghost output = { λ k. Some (kind_row k).1 };

    fn fmt<W: fmt::Write>(&self, f: &mut fmt::Formatter<W>) -> fmt::Result {
        match self {
            Kind::Number => f.write_str("number"),
            Kind::Void => f.write_str("void"),
            Kind::Function => f.write_str("function"),
            Kind::Pointer { to } => write!(f, "pointer to type {to}"),
            Kind::Fields { first, count } => write!(
                f,
                "record of {count} fields from field {first}"
            ),
        }
    }
}

impl fmt::Display for Instruction {
    ghost output = { λ i. Some (instruction_row i).1 };

    fn fmt<W: fmt::Write>(&self, f: &mut fmt::Formatter<W>) -> fmt::Result {
        match self {
            Instruction::Set { x, n } => write!(f, "x{x} = {n}"),
            Instruction::Add { x, y, z } => write!(f, "x{x} = x{y} + x{z}"),
            Instruction::Subtract { x, y, z } => write!(f, "x{x} = x{y} - x{z}"),
            Instruction::Less { x, y, z } => write!(f, "x{x} = x{y} < x{z}"),
            Instruction::Cast { x, y } => write!(f, "x{x} = cast x{y}"),
            Instruction::Jump { to } => write!(f, "jump to {to}"),
            Instruction::Branch { x, to } => write!(f, "jump to {to} if x{x}"),
            Instruction::Function { x, function } => write!(
                f,
                "x{x} = address of function {function}"
            ),
            Instruction::Global { x, global } => write!(f, "x{x} = address of global {global}"),
            Instruction::Allocate { x, y } => write!(f, "x{x} = allocate x{y}"),
            Instruction::Move { x, y, z } => write!(f, "x{x} = x{y} moved by x{z}"),
            Instruction::Field { x, y, field } => write!(
                f,
                "x{x} = address of field {field} of x{y}"
            ),
            Instruction::Load { x, y } => write!(f, "x{x} = load x{y}"),
            Instruction::Store { x, y } => write!(f, "store x{x} at x{y}"),
            Instruction::Call { function } => write!(f, "call function {function}"),
            Instruction::CallThrough { x } => write!(f, "call through x{x}"),
            Instruction::Return => f.write_str("return"),
        }
    }
}
