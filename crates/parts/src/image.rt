// The lists of an image where they stand in it: nothing is copied.
ghost use Rattle.std.specs.Prelude.{◌≡◌, length, MatchResult};

use crate::reading::rows_of;
use content::function::Function;
use content::global::Global;
use content::instruction::Instruction;
use content::kind::Kind;
use content::typed::Typed;
use header::front::Front;
use header::header::Header;
use records::list::ListOf;
use records::record::RecordFault;

// Each list has a record's words for each record, and each word is four bytes.
#[derive(Clone, Copy)]
pub struct Image<'a> {
    pub header: Header,
    pub types: &'a [[[u8; 4]; 3]],
    pub fields: &'a [[[u8; 4]; 1]],
    pub globals: &'a [[[u8; 4]; 2]],
    pub locals: &'a [[[u8; 4]; 1]],
    pub functions: &'a [[[u8; 4]; 4]],
    pub code: &'a [[[u8; 4]; 4]],
    ghost types_counted: { length types.now ≡ header.counts.types },
    ghost fields_counted: { length fields.now ≡ header.counts.fields },
    ghost globals_counted: { length globals.now ≡ header.counts.globals },
    ghost locals_counted: { length locals.now ≡ header.counts.locals },
    ghost functions_counted: { length functions.now ≡ header.counts.functions },
    ghost code_counted: { length code.now ≡ header.counts.code },
}

impl<'a> Image<'a> {
    ghost use Rattle.parts.specs.Holding.{FirstMeaningless, Listed};
    ghost use Rattle.parts.specs.Content.{shown};

    #[tactic(auto, using(records::proofs::Chunks::all_told, records::proofs::Chunks::length_rows))]
    // The lists where the image's front puts them, or the first record that means nothing.
    pub fn read(front: &Front<'a>) -> Result<Image<'a>, RecordFault>
        ensures { MatchResult result (λ i. (i.header ≡ front.now.header) × Listed front.now.image.now front.now.header.counts (shown i)) (λ f. FirstMeaningless front.now.image.now front.now.header.counts f) }
    {
        let Front { header, image } = *front;
        let (n, at) = (header.counts(), header.starts());
        Ok(Image {
            header,
            types: rows_of::<Kind, 3>(image, at.types, n.types, ListOf::Types)?,
            fields: rows_of::<Typed, 1>(image, at.fields, n.fields, ListOf::Fields)?,
            globals: rows_of::<Global, 2>(image, at.globals, n.globals, ListOf::Globals)?,
            locals: rows_of::<Typed, 1>(image, at.locals, n.locals, ListOf::Locals)?,
            functions: rows_of::<Function, 4>(image, at.functions, n.functions, ListOf::Functions)?,
            code: rows_of::<Instruction, 4>(image, at.code, n.code, ListOf::Code)?,
        })
    }
}
