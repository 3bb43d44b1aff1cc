// Reading and writing a module.
ghost use Rattle.std.specs.Prelude.{◌≡◌, true, is_ok, MatchResult};
ghost use Rattle.parts.specs.Content.{Content, shown};
ghost use Rattle.tables.specs.Tables.{AllPlaced};
ghost use Rattle.module.specs.Follows.{Follows, Accepted};
ghost use Rattle.module.specs.Refusals.{Refused};
ghost use Rattle.writing.specs.Image.{Written};
ghost use Rattle.module.specs.declared.module.Module.{Module};
ghost use Rattle.module.specs.Modules.{said, image as image_of, fresh};

use crate::fault::ModuleFault;
use crate::module::Module;
use header::front::Front;
use parts::image::Image;
use parts::parts::Parts;
use rules::reading::read_image;
use sensitivity::sensitive_types;
use tables::layout::layouts;
use tables::places::{Places, places_of};
use writing::{TooShort, write_image};

// The lists of an image that follows every rule, where they stand in it, and where its globals lie.
#[derive(Clone, Copy)]
struct Checked<'a> {
    image: Image<'a>,
    places: Places,
}

fn check_image(image: &[u8]) -> Result<Checked, ModuleFault>
    ensures { MatchResult result (λ k. Follows image.now (shown k.image) × AllPlaced (shown k.image) k.places) (λ f. Refused image.now f) }
{
    let front = Front::read(image)?;
    let image = read_image(&front)?;
    let places = places_of(&image).ok_or(ModuleFault::Globals)?;
    Ok(Checked { image, places })
}

fn read_module(bytes: &[u8]) -> Result<Module, ModuleFault>
    ensures { (c : Content) → Follows bytes.now c → MatchResult result (λ m. said m ≡ c) (λ _. ⊥) }
{
    let Checked { image, places } = check_image(bytes)?;
    let parts = Parts::of(&image);
    let sensitive = sensitive_types(&parts);
    let layouts = layouts(&image, &sensitive);
    Ok(Module {
        parts,
        sensitive,
        layouts,
        places,
    })
}

// Tells the image's first fault, if it has one.
pub fn judge(image: &[u8]) -> Result<(), ModuleFault>
    ensures answer { MatchResult result (λ _. Accepted image.now) (λ f. Refused image.now f) }
    ensures exact { (c : Content) → Follows image.now c → is_ok result ≡ true }
{
    check_image(image).map(|_checked| ())
}

// Version, memory size and depth; the starts and counts of the lists; a number; a function; a return.
const FRESH: &[u8; 104] = b"\x01\0\0\0\x01\0\0\0\x01\0\0\0\
      \x3c\0\0\0\x01\0\0\0\x48\0\0\0\0\0\0\0\x48\0\0\0\0\0\0\0\x48\0\0\0\0\0\0\0\x48\0\0\0\x01\0\0\0\x58\0\0\0\x01\0\0\0\
      \0\0\0\0\0\0\0\0\0\0\0\0\
      \0\0\0\0\x01\0\0\0\0\0\0\0\0\0\0\0\
      \x10\0\0\0\0\0\0\0\0\0\0\0\0\0\0\0";

impl Module {
    // The module before any reading: one number type, and function 0 with a lone return.
    #[tactic(auto, using(crate::proofs::Fresh::fresh_is, crate::proofs::Fresh::never_refused))]
    pub fn new() -> Module
        ensures { said result ≡ fresh }
    {
        match read_module(FRESH) {
            Ok(module) => module,
            Err(_fault) => unreachable(),
        }
    }

    // Makes the module the one of the image, or tells the image's first fault and leaves the module.
    pub fn read(&mut self, image: &[u8]) -> Result<(), ModuleFault>
        ensures answer { MatchResult result (λ _. Follows image.now (said self.new) × (image.now ≡ image_of self.new)) (λ f. Refused image.now f × (self.new ≡ self.old)) }
        ensures exact { (c : Content) → Follows image.now c → (is_ok result ≡ true) × (said self.new ≡ c) }
        ensures again { (m : Module) → image.now ≡ image_of m → (is_ok result ≡ true) × ∥ said self.new ≡ said m ∥₁ }
    {
        let Checked { image, places } = check_image(image)?;
        // In place, since a module that is handed on is copied.
        self.parts.read(&image);
        self.sensitive = sensitive_types(&self.parts);
        self.layouts = layouts(&image, &self.sensitive);
        self.places = places;
        Ok(())
    }

    // Puts the module's image at the start of `out` and answers its length; too few bytes are left as they are.
    pub fn write(&self, out: &mut [u8]) -> Result<usize, TooShort>
        ensures answer { Written (image_of self.now) out.old out.new result }
        ensures follows { ∥ Follows (image_of self.now) (said self.now) ∥₁ }
    {
        write_image(&self.parts, out)
    }
}
