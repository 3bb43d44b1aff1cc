// How many records each list has.
ghost use Rattle.std.specs.Prelude.{◌≡◌};
ghost use Rattle.header.specs.Header.{counts_in};

use records::word::word_at;

#[derive(Clone, Copy, PartialEq, Eq)]
pub struct Counts {
    pub types: usize,
    pub fields: usize,
    pub globals: usize,
    pub locals: usize,
    pub functions: usize,
    pub code: usize,
}

impl Counts {
    // The counts as they stand in an image.
    pub fn read(image: &[u8]) -> Counts
        ensures { result ≡ counts_in image.now }
    {
        Counts {
            types: word_at(image, 16) as usize,
            fields: word_at(image, 24) as usize,
            globals: word_at(image, 32) as usize,
            locals: word_at(image, 40) as usize,
            functions: word_at(image, 48) as usize,
            code: word_at(image, 56) as usize,
        }
    }
}
