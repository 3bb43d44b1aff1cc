// What the lines about modules do.
ghost use Rattle.std.specs.Prelude.{◌≡◌, ◌++◌, [], codes, cond, decimal, length, IfOk, OnOk, MatchResult, false, replicate, slice_index_or, string_bytes, vec_items, List, Result, ℕ};
ghost use Rattle.hex_bytes.specs.Hex.{bytes_of, hex_of};
ghost use Rattle.module.specs.Modules.{image as image_of, said};
ghost use Rattle.desk.specs.Heard.{IsText, ListedSo, ReadSo, WroteSo};
ghost use Rattle.desk.specs.Shown.{numbered, wrote_front, wrote_text};

use crate::told::Told;
use hex_bytes::hex::{bytes_of, push_hex};
use module::fault::Refusal;
use module::module::Module;
use std::alloc::{AllocError, Global};
use writing::TooShort;

// What a byte holds that no image is written to.
const UNWRITTEN: u8 = 165;

pub(crate) fn read_image(heap: Global, held: &mut Module, digits: &[u8]) -> Result<Told, AllocError>
    ensures { MatchResult result (λ t. ReadSo (bytes_of digits.now) held.old t held.new) (λ _. held.new ≡ held.old) }
{
    let image = bytes_of(heap, digits)?;
    Ok(Told::Read(held.read(image.as_slice())))
}

fn unwritten(heap: Global, len: u32) -> Result<Vec<u8>, AllocError>
    ensures { IfOk result (λ v. vec_items v ≡ replicate len 165) }
{
    vec![in heap; UNWRITTEN; len as usize]
}

// What the answer and the end of a text take at most, beside the digits.
const ROOM: usize = 40;

// Puts behind a text what is told in front of the bytes.
fn push_front(
    text: &mut String,
    heap: Global,
    answer: Result<usize, TooShort>,
) -> Result<(), AllocError>
    ensures { OnOk result (string_bytes text.new ≡ string_bytes text.old ++ wrote_front answer) }
{
    let (verb, number) = match answer {
        Ok(len) => ("wrote ", format!(in heap; "{len}")?),
        Err(short) => {
            let refusal = Refusal::from(short);
            ("refused ", format!(in heap; "{refusal}")?)
        }
    };
    text.push_str(verb)?;
    text.push_str(number.as_str())?;
    text.push_str("\nbytes ")
}

// In one text, which has room at once: the digits are the most of what is held.
#[tactic(auto, using(crate::proofs::Writes::fronted))]
fn wrote_text(
    heap: Global,
    answer: Result<usize, TooShort>,
    bytes: &[u8],
) -> Result<String, AllocError>
    ensures { IfOk result (λ s. string_bytes s ≡ wrote_text answer (hex_of bytes.now)) }
{
    let room = bytes.len().saturating_mul(2).saturating_add(ROOM);
    let mut text = String::with_capacity(heap, room)?;
    push_front(&mut text, heap, answer)?;
    let mut text = push_hex(text, bytes)?;
    text.push_str("\n")?;
    Ok(text)
}

fn write_over(heap: Global, held: &Module, bytes: &mut [u8]) -> Result<Told, AllocError>
    ensures { IfOk result (IsText (WroteSo (image_of held.now) bytes.old)) }
{
    let answer = held.write(bytes);
    Ok(Told::Text(wrote_text(heap, answer, bytes)?))
}

pub(crate) fn write_image(heap: Global, held: &Module, len: u32) -> Result<Told, AllocError>
    ensures { IfOk result (IsText (WroteSo (image_of held.now) (replicate len 165))) }
{
    let mut bytes = unwritten(heap, len)?;
    write_over(heap, held, bytes.as_mut_slice())
}

// Puts the number of a sensitive type behind a text, after a blank, and nothing for another type.
#[tactic(auto, using(crate::proofs::Counting::is_marked))]
fn push_number(text: &mut String, heap: Global, held: &Module, t: u32) -> Result<(), AllocError>
    ensures { OnOk result (string_bytes text.new ≡ string_bytes text.old ++ cond (slice_index_or held.now.sensitive t false) (codes " " ++ decimal t) []) }
{
    if !held.is_sensitive(t) {
        return Ok(());
    }
    let number = format!(in heap; " {t}")?;
    text.push_str(number.as_str())
}

// The numbers of the sensitive types, each after a blank.
#[tactic(auto, using(crate::proofs::Counting::few_types, crate::proofs::Counting::one_more, crate::proofs::Counting::all_types))]
fn push_sensitive(text: &mut String, heap: Global, held: &Module) -> Result<(), AllocError>
    ensures { OnOk result (string_bytes text.new ≡ string_bytes text.old ++ numbered held.now.sensitive (length (said held.now).types)) }
{
    let types = held.lists().types.len() as u32;
    // Over the numbers of the types, since these are told and the types are not looked at.
    for t in 0..types {
        push_number(text, heap, held, t)?;
    }
    Ok(())
}

// The word, a blank and two digits for each of 64 types, and the end.
const MOST_SENSITIVE: usize = 202;

fn sensitive_text(heap: Global, held: &Module) -> Result<String, AllocError>
    ensures { IfOk result (λ s. string_bytes s ≡ codes "sensitive" ++ (numbered held.now.sensitive (length (said held.now).types) ++ codes "\n")) }
{
    let mut text = String::with_capacity(heap, MOST_SENSITIVE)?;
    text.push_str("sensitive")?;
    push_sensitive(&mut text, heap, held)?;
    text.push_str("\n")?;
    Ok(text)
}

#[tactic(auto, using(crate::proofs::Counting::listed))]
pub(crate) fn list_sensitive(heap: Global, held: &Module) -> Result<Told, AllocError>
    ensures { IfOk result (IsText (ListedSo (said held.now))) }
{
    Ok(Told::Text(sensitive_text(heap, held)?))
}
