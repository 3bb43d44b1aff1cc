// The lists of an image, read and judged.
ghost use Rattle.std.specs.Prelude.{◌≡◌, MatchResult};
ghost use Rattle.parts.specs.Content.{shown};
ghost use Rattle.parts.specs.Holding.{Listed};
ghost use Rattle.rules.specs.declared.rule.Rule.TheVariants.{Names, Types};
ghost use Rattle.rules.specs.Judging.{Kept};
ghost use Rattle.rules.specs.Faults.{RecordsBad};

use crate::fault::RuleFault;
use crate::judging::check;
use header::front::Front;
use parts::image::Image;

pub fn read_image<'a>(front: &Front<'a>) -> Result<Image<'a>, RuleFault>
    ensures { MatchResult result (λ i. (i.header ≡ front.now.header) × Listed front.now.image.now front.now.header.counts (shown i) × Kept Names (shown i) × Kept Types (shown i)) (λ e. RecordsBad front.now.image.now front.now.header.memory front.now.header.depth front.now.header.counts e) }
{
    let image = Image::read(front)?;
    check(&image)?;
    Ok(image)
}
