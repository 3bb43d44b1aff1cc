// A value as a script writes it.
ghost use Rattle.std.specs.Prelude.{◌≡◌};
ghost use Rattle.std.proofs.Math.Decide.{dec_lt, dec_le};
ghost use Rattle.values.specs.declared.marked.Marked.TheVariants.{Code};
ghost use Rattle.words.specs.Forms.{ends, largest, number};
ghost use Rattle.script.specs.Lines.{bounded, bounds_by, value};

use values::bounds::Bounds;
use values::marked::Marked;
use words::fault::Fault;
use words::words::Words;

#[tactic(auto, using(crate::proofs::Bounding::bounded_so))]
fn bounds(low: u32, high: u32) -> Result<Bounds, Fault>
    ensures { result ≡ bounds_by (dec_lt low high) (dec_le high 65536) }
{
    Bounds::new(low, high).ok_or(Fault::Bounds)
}

#[tactic(auto, unfolding(words::specs::Forms::number, words::specs::Forms::ends))]
fn data(words: &mut Words) -> Result<Marked, Fault>
    ensures { result ≡ bounded words.old }
{
    let word = words.number(u32::MAX)?;
    let low = words.number(u32::MAX)?;
    let high = words.number(u32::MAX)?;
    let bounds = bounds(low, high)?;
    words.end()?;
    Ok(Marked::Data(word, bounds))
}

#[tactic(auto, unfolding(words::specs::Forms::number, words::specs::Forms::ends))]
fn code(words: &mut Words) -> Result<Marked, Fault>
    ensures { result ≡ number largest (λ f. ends (Code f)) words.old }
{
    let function = words.number(u32::MAX)?;
    words.end()?;
    Ok(Marked::Code(function))
}

// A value as `code F` or `data W LOW HIGH`, and the end.
#[tactic(auto, unfolding(words::specs::Forms::one_of, words::specs::Forms::read))]
pub(crate) fn value(words: &mut Words) -> Result<Marked, Fault>
    ensures { result ≡ value words.old }
{
    let kind = words.word()?;
    if kind == b"code".as_slice() {
        code(words)
    } else if kind == b"data".as_slice() {
        data(words)
    } else {
        Err(Fault::Word)
    }
}
