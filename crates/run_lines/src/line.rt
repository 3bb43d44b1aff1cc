// A line about runs or the memory, read into what it asks for.
ghost use Rattle.std.specs.Prelude.{◌≡◌, ◌∷◌};
ghost use Rattle.std.specs.Str.{bytes_eq};
ghost use Rattle.words.specs.Forms.{ends, largest, number, read};
ghost use Rattle.words.specs.Words.{words as split};
ghost use Rattle.run_lines.specs.Asks.{runs};
ghost use Rattle.run_lines.specs.declared.line.RunLine.TheVariants as line;

use words::fault::Fault;
use words::words::Words;

// The most words that a script may give the memory.
const MOST_WORDS: u32 = 65_537;

// The most events that a script may ask for at once.
const MOST_EVENTS: u32 = 65_536;

#[derive(Clone, Copy)]
pub enum RunLine {
    Begin,
    // How many words the memory has.
    Memory(u32),
    // The address, and the word that is written there.
    Poke(u32, u32),
    Peek(u32),
    Digest,
    Step,
    // How many events there are at most.
    Go(u32),
    Frames,
    Entries,
    Status,
}

#[tactic(auto, unfolding(words::specs::Forms::number, words::specs::Forms::ends))]
fn number(most: u32, words: &mut Words) -> Result<u32, Fault>
    ensures { result ≡ number most ends words.old }
{
    let number = words.number(most)?;
    words.end()?;
    Ok(number)
}

#[tactic(auto, unfolding(words::specs::Forms::number, words::specs::Forms::ends))]
fn poke(words: &mut Words) -> Result<RunLine, Fault>
    ensures { result ≡ number largest (λ a. number largest (λ w. ends (line.Poke a w))) words.old }
{
    let address = words.number(u32::MAX)?;
    let word = words.number(u32::MAX)?;
    words.end()?;
    Ok(RunLine::Poke(address, word))
}

#[tactic(auto, unfolding(words::specs::Forms::ends))]
fn bare(line: RunLine, words: &mut Words) -> Result<RunLine, Fault>
    ensures { result ≡ ends line words.old }
{
    words.end()?;
    Ok(line)
}

// A pattern takes each letter as a step of its own, and in long words their proof ends at a limit.
fn spells(word: &[u8], text: &[u8]) -> bool
    ensures { result ≡ bytes_eq word.now text.now }
{
    word == text
}

// What is asked by a line's first word and the text behind it; or nothing where that isn't about runs or the memory. The verb is read before it is known who reads the other words, so that both are handed on.
#[tactic(auto, unfolding(words::specs::Forms::read))]
pub fn asked(verb: &[u8], rest: &[u8]) -> Option<Result<RunLine, Fault>>
    ensures { result ≡ read runs (verb.now ∷ split rest.now) }
{
    let words = &mut Words::of(rest);
    let line = if spells(verb, b"memory") {
        number(MOST_WORDS, words).map(RunLine::Memory)
    } else if spells(verb, b"poke") {
        poke(words)
    } else if spells(verb, b"peek") {
        number(u32::MAX, words).map(RunLine::Peek)
    } else if spells(verb, b"digest") {
        bare(RunLine::Digest, words)
    } else if spells(verb, b"begin") {
        bare(RunLine::Begin, words)
    } else if spells(verb, b"step") {
        bare(RunLine::Step, words)
    } else if spells(verb, b"go") {
        number(MOST_EVENTS, words).map(RunLine::Go)
    } else if spells(verb, b"frames") {
        bare(RunLine::Frames, words)
    } else if spells(verb, b"entries") {
        bare(RunLine::Entries, words)
    } else if spells(verb, b"status") {
        bare(RunLine::Status, words)
    } else {
        return None;
    };
    Some(line)
}

// What the line asks for, or nothing where it isn't about runs or the memory.
#[tactic(auto, unfolding(words::specs::Forms::read))]
pub fn parse(line: &[u8]) -> Option<Result<RunLine, Fault>>
    ensures { result ≡ read runs (split line.now) }
{
    let mut words = Words::of(line);
    let verb = words.next()?;
    asked(verb, words.rest())
}
