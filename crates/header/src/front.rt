// The bytes of an image whose front is right: its lists are there, and nothing is behind them.
ghost use Rattle.std.specs.Prelude.{◌≡◌, length, MatchResult};
ghost use Rattle.header.specs.Header.{end_at, Headed, HeaderBad};

use crate::fault::HeaderFault;
use crate::header::Header;

#[derive(Clone, Copy)]
pub struct Front<'a> {
    pub header: Header,
    pub image: &'a [u8],
    ghost whole: { length image.now ≡ end_at header.counts },
}

impl<'a> Front<'a> {
    // The first fault of the image's front, if it has one.
    #[tactic(auto, using(crate::proofs::Ends::ends_there))]
    pub fn read(image: &'a [u8]) -> Result<Front<'a>, HeaderFault>
        ensures { MatchResult result (λ f. (f.image.now ≡ image.now) × Headed image.now f.header.memory f.header.depth f.header.counts) (λ e. HeaderBad image.now e) }
    {
        let header = Header::read(image)?;
        Ok(Front { header, image })
    }
}
