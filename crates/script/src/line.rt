// A line of a script, read into what it asks for.
ghost use Rattle.std.specs.Prelude.{◌≡◌, ◌∷◌};
ghost use Rattle.words.specs.Forms.{ends, largest, number, one_of, part, read};
ghost use Rattle.words.specs.Words.{words as split};
ghost use Rattle.script.specs.Lines.{makes, shape, sized, stores, value};
ghost use Rattle.script.specs.declared.command.Call.TheVariants as call;
ghost use Rattle.script.specs.declared.command.Command.TheVariants.{Ask};

use crate::command::{Call, Command, Make, Shape, View};
use crate::value::value;
use words::fault::Fault;
use words::words::Words;

// The largest store that a script may ask for.
const MOST_SLOTS: u32 = 70_000;

#[tactic(auto, unfolding(words::specs::Forms::number, words::specs::Forms::ends))]
fn sized(words: &mut Words, view: Option<View>, make: Make) -> Result<Shape, Fault>
    ensures { result ≡ sized view make words.old }
{
    let slots = words.number(MOST_SLOTS)?;
    words.end()?;
    Ok(Shape { view, make, slots })
}

// The word that names the make is read before.
#[tactic(auto, unfolding(words::specs::Forms::read))]
fn made(make: &[u8], words: &mut Words, view: Option<View>) -> Option<Result<Shape, Fault>>
    ensures { result ≡ read (makes view) (make.now ∷ words.old) }
{
    if make == b"array".as_slice() {
        Some(sized(words, view, Make::Array))
    } else if make == b"hash".as_slice() {
        Some(sized(words, view, Make::Hash))
    } else {
        None
    }
}

#[tactic(auto, unfolding(words::specs::Forms::number, words::specs::Forms::one_of))]
fn window(words: &mut Words) -> Result<Shape, Fault>
    ensures { result ≡ number largest (λ b. number largest (λ l. one_of (makes (Some (record { base = b; len = l }))))) words.old }
{
    let base = words.number(u32::MAX)?;
    let len = words.number(u32::MAX)?;
    let make = words.word()?;
    made(make, words, Some(View { base, len })).unwrap_or(Err(Fault::Word))
}

#[tactic(auto, unfolding(words::specs::Forms::one_of, words::specs::Forms::read))]
fn shape(words: &mut Words) -> Result<Shape, Fault>
    ensures { result ≡ shape words.old }
{
    let word = words.word()?;
    if word == b"window".as_slice() {
        window(words)
    } else {
        made(word, words, None).unwrap_or(Err(Fault::Word))
    }
}

#[tactic(auto, unfolding(words::specs::Forms::number))]
fn put(words: &mut Words) -> Result<Command, Fault>
    ensures { result ≡ number largest (λ a. part (λ v. Ask (call.Put a v)) value) words.old }
{
    let address = words.number(u32::MAX)?;
    let value = value(words)?;
    Ok(Command::Ask(Call::Put(address, value)))
}

#[tactic(auto, unfolding(words::specs::Forms::number, words::specs::Forms::ends))]
fn address(words: &mut Words) -> Result<u32, Fault>
    ensures { result ≡ number largest ends words.old }
{
    let address = words.number(u32::MAX)?;
    words.end()?;
    Ok(address)
}

// What is asked by a line's first word and the text behind it; or nothing where that isn't about stores. The verb is read before it is known who reads the other words, so that both are handed on.
#[tactic(auto, unfolding(words::specs::Forms::read))]
pub fn asked(verb: &[u8], rest: &[u8]) -> Option<Result<Command, Fault>>
    ensures { result ≡ read stores (verb.now ∷ split rest.now) }
{
    let words = &mut Words::of(rest);
    if verb == b"store".as_slice() {
        Some(shape(words).map(Command::Build))
    } else if verb == b"put".as_slice() {
        Some(put(words))
    } else if verb == b"drop".as_slice() {
        Some(address(words).map(|a| Command::Ask(Call::Drop(a))))
    } else if verb == b"get".as_slice() {
        Some(address(words).map(|a| Command::Ask(Call::Get(a))))
    } else if verb == b"takes".as_slice() {
        Some(address(words).map(|a| Command::Ask(Call::Takes(a))))
    } else {
        None
    }
}

// What the line asks for, or nothing where it isn't about stores.
#[tactic(auto, unfolding(words::specs::Forms::read))]
pub fn parse(line: &[u8]) -> Option<Result<Command, Fault>>
    ensures { result ≡ read stores (split line.now) }
{
    let mut words = Words::of(line);
    let verb = words.next()?;
    asked(verb, words.rest())
}
