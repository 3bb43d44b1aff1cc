// The lists of a module, lent.
use content::function::Function;
use content::global::Global;
use content::instruction::Instruction;
use content::kind::Kind;
use content::typed::Typed;

#[derive(Clone, Copy)]
pub struct Lists<'a> {
    pub memory: u32,
    pub depth: u32,
    pub types: &'a [Kind],
    pub fields: &'a [Typed],
    pub globals: &'a [Global],
    pub locals: &'a [Typed],
    pub functions: &'a [Function],
    pub code: &'a [Instruction],
}
