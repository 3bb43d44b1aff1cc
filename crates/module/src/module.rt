// A module holds only what an image that follows the rules says.
ghost use Rattle.parts.specs.Content.{content};
ghost use Rattle.tables.specs.Tables.{AllPlaced, LaidOut};
ghost use Rattle.writing.specs.Image.{image_of};
ghost use Rattle.module.specs.Follows.{Follows, Right};

use parts::parts::Parts;
use tables::layout::Local;
use tables::places::Places;

// The marks, layouts and places are arrays beside the lists, as long as these may be: the board has no heap.
#[derive(Clone, Copy)]
pub struct Module {
    pub(crate) parts: Parts,
    pub(crate) sensitive: [bool; 64],
    pub(crate) layouts: [[Local; 8]; 64],
    pub(crate) places: Places,
    ghost follows: { ∥ Follows (image_of (content parts)) (content parts) ∥₁ },
    ghost right: { Right (content parts) sensitive },
    ghost laid_out: { ∥ LaidOut (content parts) sensitive layouts ∥₁ },
    ghost placed: { ∥ AllPlaced (content parts) places ∥₁ },
}
