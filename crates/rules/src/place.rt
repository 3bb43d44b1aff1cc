// What an instruction must keep in a function that has it.
ghost use Rattle.std.specs.Prelude.{◌≡◌, ℕ, ◌<◌, None, get_or, drop, take};
ghost use Rattle.std.specs.List.{range_with_len};
ghost use Rattle.parts.specs.Content.{shown};
ghost use Rattle.rules.specs.Types.{number, local_type};
ghost use Rattle.rules.specs.Keeping.{ends, kind_of, target, target_kind, instruction_keeps};
ghost use Rattle.rules.specs.inside.Rows.{named, typed};
ghost use Rattle.rules.specs.Judging.{place_keeps, first_in};

use crate::lookup::{
    field_type, function, global_type, kind_of_type, local_type, number, pointee, same, sized,
};
use crate::rule::Rule;
use content::function::Function;
use content::instruction::Instruction;
use content::kind::Kind;
use parts::image::Image;
use parts::items::INSTRUCTION;
use records::rows::read_or;

// A function among the lists that it stands in.
#[derive(Clone, Copy)]
pub struct Scope<'a> {
    image: &'a Image<'a>,
    function: &'a Function,
    // The kinds of its first locals, and a function has no more than eight: nothing is asked for more often.
    kinds: [Option<Kind>; 8],
    ghost known: { (x : ℕ) → x < 8 → get_or kinds x None ≡ kind_of (shown image.now) function.now x },
}

fn kind_of_local(image: &Image, function: &Function, x: u32) -> Option<Kind>
    ensures { result ≡ kind_of (shown image.now) function.now x }
{
    kind_of_type(image.types, local_type(image.locals, function, x))
}

fn kinds_of(image: &Image, function: &Function) -> [Option<Kind>; 8]
    ensures { (x : ℕ) → x < 8 → get_or result x None ≡ kind_of (shown image.now) function.now x }
{
    let mut kinds = [None; 8];
    for (x, kind) in kinds.iter_mut().enumerate() {
        *kind = kind_of_local(image, function, x as u32);
    }
    kinds
}

impl<'a> Scope<'a> {
    pub fn of(image: &'a Image<'a>, function: &'a Function) -> Scope<'a>
        ensures image { result.image.now ≡ image.now }
        ensures function { result.function.now ≡ function.now }
    {
        Scope {
            image,
            function,
            kinds: kinds_of(image, function),
        }
    }

    // The type of local x.
    pub fn local_type(&self, x: u32) -> Option<u32>
        ensures { result ≡ local_type (shown self.now.image.now).locals self.now.function.now x }
    {
        local_type(self.image.locals, self.function, x)
    }

    fn kind_of(&self, x: u32) -> Option<Kind>
        ensures { result ≡ kind_of (shown self.now.image.now) self.now.function.now x }
    {
        match self.kinds.get(x as usize) {
            Some(kind) => *kind,
            None => kind_of_local(self.image, self.function, x),
        }
    }

    // The type that local x points at.
    fn target(&self, x: u32) -> Option<u32>
        ensures { result ≡ target (shown self.now.image.now) self.now.function.now x }
    {
        pointee(self.kind_of(x))
    }

    pub fn target_kind(&self, x: u32) -> Option<Kind>
        ensures { result ≡ target_kind (shown self.now.image.now) self.now.function.now x }
    {
        kind_of_type(self.image.types, self.target(x))
    }

    fn named(&self, instruction: Instruction) -> bool
        ensures { result ≡ named (shown self.now.image.now) self.now.function.now instruction }
    {
        let Image {
            functions,
            globals,
            ..
        } = *self.image;
        let Function {
            count,
            locals: n,
            ..
        } = *self.function;
        match instruction {
            Instruction::Set { x, .. } | Instruction::CallThrough { x } => x < n,
            Instruction::Add { x, y, z }
            | Instruction::Subtract { x, y, z }
            | Instruction::Less { x, y, z }
            | Instruction::Move { x, y, z } => x < n && y < n && z < n,
            Instruction::Cast { x, y }
            | Instruction::Allocate { x, y }
            | Instruction::Field { x, y, .. }
            | Instruction::Load { x, y }
            | Instruction::Store { x, y } => x < n && y < n,
            Instruction::Jump { to } => to < count,
            Instruction::Branch { x, to } => x < n && to < count,
            Instruction::Function { x, function } => x < n && (function as usize) < functions.len(),
            Instruction::Global { x, global } => x < n && (global as usize) < globals.len(),
            Instruction::Call { function } => (function as usize) < functions.len(),
            Instruction::Return => true,
        }
    }

    fn is_number(&self, x: u32) -> bool
        ensures { result ≡ number (kind_of (shown self.now.image.now) self.now.function.now x) }
    {
        number(self.kind_of(x))
    }

    fn typed(&self, instruction: Instruction) -> bool
        ensures { result ≡ typed (shown self.now.image.now) self.now.function.now instruction }
    {
        let image = self.image;
        match instruction {
            Instruction::Set { x, .. } | Instruction::Branch { x, .. } => self.is_number(x),
            Instruction::Add { x, y, z }
            | Instruction::Subtract { x, y, z }
            | Instruction::Less { x, y, z } => {
                self.is_number(x) && self.is_number(y) && self.is_number(z)
            }
            Instruction::Function { x, .. } | Instruction::CallThrough { x } => {
                function(self.target_kind(x))
            }
            Instruction::Global { x, global } => same(
                self.target(x),
                global_type(image.globals, global),
            ),
            Instruction::Allocate { x, y } => sized(self.target_kind(x)) && self.is_number(y),
            Instruction::Move { x, y, z } => {
                same(self.local_type(x), self.local_type(y))
                    && sized(self.target_kind(x))
                    && self.is_number(z)
            }
            Instruction::Field { x, y, field } => {
                same(
                    self.target(x),
                    field_type(image.fields, self.target_kind(y), field),
                )
            }
            Instruction::Load { x, y } | Instruction::Store { x, y } => {
                same(self.target(y), self.local_type(x))
            }
            Instruction::Cast { .. }
            | Instruction::Jump { .. }
            | Instruction::Call { .. }
            | Instruction::Return => true,
        }
    }

    // The instruction at place `i` of the function keeps the rule there.
    fn passes(&self, rule: Rule, i: u32, instruction: Instruction) -> bool
        ensures { result ≡ instruction_keeps rule (shown self.now.image.now) self.now.function.now i instruction }
    {
        match rule {
            Rule::Names => self.named(instruction),
            Rule::Types => self.typed(instruction)
                && (i as u64 + 1 != self.function.count as u64 || ends(instruction)),
        }
    }

    // Its instructions, as many of them as are there.
    fn rows(&self) -> &'a [[[u8; 4]; 4]]
        ensures { result.now ≡ take self.now.function.now.count (drop self.now.function.now.first self.now.image.now.code.now) }
    {
        let Function { first, count, .. } = *self.function;
        let rows = self.image.code.get(first as usize..).unwrap_or(&[]);
        rows.get(..count as usize).unwrap_or(rows)
    }

    // The first place of the function where its instruction breaks the rule; one that isn't there breaks nothing.
    pub(crate) fn broken_at(&self, rule: Rule) -> Option<u32>
        ensures { result ≡ first_in (place_keeps rule (shown self.now.image.now) self.now.function.now) (range_with_len 0 self.now.function.now.count) }
    {
        let rows = self.rows();
        for (i, row) in rows.iter().enumerate() {
            if !self.passes(rule, i as u32, read_or(row, INSTRUCTION)) {
                return Some(i as u32);
            }
        }
        None
    }
}

// The instructions that may stand last.
fn ends(instruction: Instruction) -> bool
    ensures { result ≡ ends instruction }
{
    matches!(instruction, Instruction::Jump { .. } | Instruction::Return)
}
