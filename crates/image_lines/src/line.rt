// A line about modules, read into what it asks for.
ghost use Rattle.std.specs.Prelude.{◌≡◌, ◌∷◌};
ghost use Rattle.std.specs.Option.{option_map};
ghost use Rattle.std.specs.Result.{result_map_both};
ghost use Rattle.words.specs.Words.{words as split};
ghost use Rattle.words.specs.Forms.{ends, number, part, read};
ghost use Rattle.image_lines.specs.Asks.{asked, bytes, modules};
ghost use Rattle.image_lines.specs.Asks as asks;

use hex_bytes::hex::is_hex;
use words::fault::Fault;
use words::words::Words;

// The most bytes that a module may be written to.
const MOST_BYTES: u32 = 65_536;

#[derive(Clone, Copy)]
pub enum ImageLine<'a> {
    // The digits of an image's bytes.
    Image(&'a [u8]),
    // How many bytes a module is written to.
    Write(u32),
    Sensitive,
}

#[tactic(auto, unfolding(crate::specs::Asks::bytes, words::specs::Forms::ends))]
fn image<'a>(words: &mut Words<'a>) -> Result<ImageLine<'a>, Fault>
    ensures { result_map_both asked (λ e. e) result ≡ bytes words.old }
{
    let Some(digits) = words.next() else {
        return Ok(ImageLine::Image(&[]));
    };
    if !is_hex(digits) {
        return Err(Fault::Hex);
    }
    words.end()?;
    Ok(ImageLine::Image(digits))
}

#[tactic(auto, unfolding(words::specs::Forms::number, words::specs::Forms::ends))]
fn write<'a>(words: &mut Words<'a>) -> Result<ImageLine<'a>, Fault>
    ensures { result_map_both asked (λ e. e) result ≡ part asks.write (number 65536 ends) words.old }
{
    let bytes = words.number(MOST_BYTES)?;
    words.end()?;
    Ok(ImageLine::Write(bytes))
}

#[tactic(auto, unfolding(words::specs::Forms::ends))]
fn sensitive<'a>(words: &mut Words<'a>) -> Result<ImageLine<'a>, Fault>
    ensures { result_map_both asked (λ e. e) result ≡ ends asks.sensitive words.old }
{
    words.end()?;
    Ok(ImageLine::Sensitive)
}

// What is asked by a line's first word and the text behind it; or nothing where that isn't about modules. The verb is read before it is known who reads the other words, so that both are handed on.
#[tactic(auto, unfolding(words::specs::Forms::read))]
pub fn asked<'a>(verb: &[u8], rest: &'a [u8]) -> Option<Result<ImageLine<'a>, Fault>>
    ensures { option_map (result_map_both asked (λ e. e)) result ≡ read modules (verb.now ∷ split rest.now) }
{
    let words = &mut Words::of(rest);
    if verb == b"image".as_slice() {
        Some(image(words))
    } else if verb == b"write".as_slice() {
        Some(write(words))
    } else if verb == b"sensitive".as_slice() {
        Some(sensitive(words))
    } else {
        None
    }
}

// What the line asks for, or nothing where it isn't about modules.
#[tactic(auto, unfolding(words::specs::Forms::read))]
pub fn parse(line: &[u8]) -> Option<Result<ImageLine, Fault>>
    ensures { option_map (result_map_both asked (λ e. e)) result ≡ read modules (split line.now) }
{
    let mut words = Words::of(line);
    let verb = words.next()?;
    asked(verb, words.rest())
}
