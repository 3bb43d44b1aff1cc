// The lists of a module, held in arrays of fixed lengths.
ghost use Rattle.std.specs.Prelude.{◌≡◌, length};

use crate::image::Image;
use crate::items::{FUNCTION, GLOBAL, INSTRUCTION, KIND, TYPED};
use crate::lists::Lists;
use crate::reading::fill;
use content::function::Function;
use content::global::Global;
use content::instruction::Instruction;
use content::kind::Kind;
use content::typed::Typed;
use header::header::Header;

// The header counts the records: the board has no heap, so that each list is an array as long as a list may be.
#[derive(Clone, Copy)]
pub struct Parts {
    header: Header,
    types: [Kind; 64],
    fields: [Typed; 256],
    globals: [Global; 64],
    locals: [Typed; 256],
    functions: [Function; 64],
    code: [Instruction; 1024],
    // Said here, since the prover knows the lengths of a struct's first four arrays alone.
    ghost functions_long: { length functions ≡ 64 },
    ghost code_long: { length code ≡ 1024 },
}

impl Parts {
    ghost use Rattle.parts.specs.Content.{content, lengths, shown, viewed};

    // The lists of an image.
    pub fn of(image: &Image) -> Parts
        ensures header { result.header ≡ image.now.header }
        ensures lists { content result ≡ shown image.now }
    {
        let mut parts = Parts {
            header: image.header,
            types: [KIND; 64],
            fields: [TYPED; 256],
            globals: [GLOBAL; 64],
            locals: [TYPED; 256],
            functions: [FUNCTION; 64],
            code: [INSTRUCTION; 1024],
        };
        parts.read(image);
        parts
    }

    // Takes over the lists of an image. Each is filled where it stands, since an array that is handed on is copied.
    pub fn read(&mut self, image: &Image)
        ensures header { self.new.header ≡ image.now.header }
        ensures lists { content self.new ≡ shown image.now }
    {
        self.header = image.header;
        fill(&mut self.types, image.types, KIND);
        fill(&mut self.fields, image.fields, TYPED);
        fill(&mut self.globals, image.globals, GLOBAL);
        fill(&mut self.locals, image.locals, TYPED);
        fill(&mut self.functions, image.functions, FUNCTION);
        fill(&mut self.code, image.code, INSTRUCTION);
    }

    pub fn header(&self) -> Header
        ensures value { result ≡ self.now.header }
        ensures counted { lengths (content self.now) ≡ self.now.header.counts }
    {
        self.header
    }

    pub fn lists(&self) -> Lists
        ensures { viewed result ≡ content self.now }
    {
        let n = self.header.counts();
        Lists {
            memory: self.header.memory(),
            depth: self.header.depth(),
            types: &self.types[..n.types],
            fields: &self.fields[..n.fields],
            globals: &self.globals[..n.globals],
            locals: &self.locals[..n.locals],
            functions: &self.functions[..n.functions],
            code: &self.code[..n.code],
        }
    }
}
