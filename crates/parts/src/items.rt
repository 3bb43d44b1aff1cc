// An item of a list that stands in an image.
ghost use Rattle.std.specs.Prelude.{◌≡◌};
ghost use Rattle.std.specs.List.{slice_get};
ghost use Rattle.parts.specs.Content.{kinds, typed, globals, functions, code};

use content::function::Function;
use content::global::Global;
use content::instruction::Instruction;
use content::kind::Kind;
use content::typed::Typed;
use records::rows::read_at;

// What a record that means nothing is taken for; an image that was read has none.
pub const KIND: Kind = Kind::Number;

pub const TYPED: Typed = Typed { kind: 0 };

pub const GLOBAL: Global = Global { kind: 0, count: 1 };

pub const FUNCTION: Function = Function {
    first: 0,
    count: 1,
    first_local: 0,
    locals: 0,
};

pub const INSTRUCTION: Instruction = Instruction::Return;

pub fn kind_at(list: &[[[u8; 4]; 3]], i: usize) -> Option<Kind>
    ensures { result ≡ slice_get (kinds list.now) i }
{
    read_at(list, i, KIND)
}

pub fn typed_at(list: &[[[u8; 4]; 1]], i: usize) -> Option<Typed>
    ensures { result ≡ slice_get (typed list.now) i }
{
    read_at(list, i, TYPED)
}

pub fn global_at(list: &[[[u8; 4]; 2]], i: usize) -> Option<Global>
    ensures { result ≡ slice_get (globals list.now) i }
{
    read_at(list, i, GLOBAL)
}

pub fn function_at(list: &[[[u8; 4]; 4]], i: usize) -> Option<Function>
    ensures { result ≡ slice_get (functions list.now) i }
{
    read_at(list, i, FUNCTION)
}

pub fn instruction_at(list: &[[[u8; 4]; 4]], i: usize) -> Option<Instruction>
    ensures { result ≡ slice_get (code list.now) i }
{
    read_at(list, i, INSTRUCTION)
}
