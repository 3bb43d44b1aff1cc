//! The image of a module's lists, written.
#![tactic(auto)]

ghost use Rattle.std.specs.Prelude.{◌≡◌, ◌≤◌, ◌++◌, length, drop};
ghost use Rattle.records.specs.Words.{spell};
ghost use Rattle.header.specs.Header.{starts_of, end_at};
ghost use Rattle.parts.specs.Content.{content, lengths, viewed};
ghost use Rattle.writing.specs.Image.{image_of, Written, header_words, list_words};
ghost use Rattle.writing.specs.inside.Putting.{placed};

use crate::putting::{put_list, put_words};
use header::header::Header;
use header::starts::Starts;
use parts::lists::Lists;
use parts::parts::Parts;

mod putting;

// Fewer bytes than the image has.
#[derive(Clone, Copy, PartialEq, Eq)]
pub struct TooShort;

fn header_words(header: Header) -> [u32; 15]
    ensures { result ≡ header_words header.memory header.depth header.counts }
{
    let (n, at) = (header.counts(), header.starts());
    [
        1,
        header.memory(),
        header.depth(),
        at.types as u32,
        n.types as u32,
        at.fields as u32,
        n.fields as u32,
        at.globals as u32,
        n.globals as u32,
        at.locals as u32,
        n.locals as u32,
        at.functions as u32,
        n.functions as u32,
        at.code as u32,
        n.code as u32,
    ]
}

// Puts the six lists where they start.
fn put_lists(out: &mut [u8], at: Starts, lists: Lists)
    requires starts { at ≡ starts_of (lengths (viewed lists)) }
    requires fits { end_at (lengths (viewed lists)) ≤ length out.old }
    ensures { out.new ≡ placed out.old 60 (spell (list_words (viewed lists.entry))) }
{
    put_list(out, at.types, lists.types);
    put_list(out, at.fields, lists.fields);
    put_list(out, at.globals, lists.globals);
    put_list(out, at.locals, lists.locals);
    put_list(out, at.functions, lists.functions);
    put_list(out, at.code, lists.code);
}

// Puts the image into bytes that are enough.
#[tactic(auto, using(crate::proofs::Whole::length_image))]
fn put_image(out: &mut [u8], parts: &Parts)
    requires { length (image_of (content parts.now)) ≤ length out.old }
    ensures { out.new ≡ image_of (content parts.now) ++ drop (length (image_of (content parts.now))) out.old }
{
    let header = parts.header();
    put_words(out, 0, &header_words(header));
    put_lists(out, header.starts(), parts.lists());
}

// Puts the image at the start of `out` and answers its length.
#[tactic(auto, using(crate::proofs::Whole::length_image))]
pub fn write_image(parts: &Parts, out: &mut [u8]) -> Result<usize, TooShort>
    ensures { Written (image_of (content parts.now)) out.old out.new result }
{
    let end = parts.header().starts().end;
    if out.len() < end {
        return Err(TooShort);
    }
    put_image(out, parts);
    Ok(end)
}
