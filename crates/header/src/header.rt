// The checked front of an image.
ghost use Rattle.std.specs.Prelude.{◌≡◌, ◌≤◌, true, false, MatchOption, MatchResult};
ghost use Rattle.header.specs.Header.{ranged, laid, Few, Headed, HeaderBad, starts_of};

use crate::counts::Counts;
use crate::fault::HeaderFault;
use crate::starts::Starts;
use records::word::word_at;

#[derive(Clone, Copy)]
pub struct Header {
    memory: u32,
    depth: u32,
    counts: Counts,
    ghost some_memory: { 1 ≤ memory },
    ghost few_words: { memory ≤ 65536 },
    ghost few_frames: { depth ≤ 16 },
    ghost few: { Few counts },
}

impl Header {
    pub fn new(memory: u32, depth: u32, counts: Counts) -> Option<Header>
        ensures { MatchOption result (ranged memory depth counts ≡ false) (λ h. (ranged memory depth counts ≡ true) × (h.memory ≡ memory) × (h.depth ≡ depth) × (h.counts ≡ counts)) }
    {
        match (memory, depth, counts) {
            (
                1..=65_536,
                ..=16,
                Counts {
                    types: 1..=64,
                    fields: ..=256,
                    globals: ..=64,
                    locals: ..=256,
                    functions: 1..=64,
                    code: 1..=1024,
                },
            ) => Some(Header {
                memory,
                depth,
                counts,
            }),
            _ => None,
        }
    }

    pub fn memory(&self) -> u32
        ensures { result ≡ self.now.memory }
    {
        self.memory
    }

    // The depth as it is written: 0 stands for 16.
    pub fn depth(&self) -> u32
        ensures { result ≡ self.now.depth }
    {
        self.depth
    }

    pub fn counts(&self) -> Counts
        ensures value { result ≡ self.now.counts }
        ensures few { Few result }
    {
        self.counts
    }

    pub fn starts(&self) -> Starts
        ensures { result ≡ starts_of self.now.counts }
    {
        let n = self.counts;
        let types = 60;
        let fields = types + 12 * n.types;
        let globals = fields + 4 * n.fields;
        let locals = globals + 8 * n.globals;
        let functions = locals + 4 * n.locals;
        let code = functions + 16 * n.functions;
        let end = code + 16 * n.code;
        Starts {
            types,
            fields,
            globals,
            locals,
            functions,
            code,
            end,
        }
    }

    fn laid(&self, image: &[u8]) -> bool
        ensures { result ≡ laid image.now self.now.counts }
    {
        let at = self.starts();
        word_at(image, 12) as usize == at.types
            && word_at(image, 20) as usize == at.fields
            && word_at(image, 28) as usize == at.globals
            && word_at(image, 36) as usize == at.locals
            && word_at(image, 44) as usize == at.functions
            && word_at(image, 52) as usize == at.code
            && image.len() == at.end
    }

    // The front of an image, if it is right; otherwise the first fault there.
    pub fn read(image: &[u8]) -> Result<Header, HeaderFault>
        ensures { MatchResult result (λ h. Headed image.now h.memory h.depth h.counts) (λ f. HeaderBad image.now f) }
    {
        if image.len() < 60 {
            return Err(HeaderFault::Short);
        }
        if word_at(image, 0) != 1 {
            return Err(HeaderFault::Version);
        }
        let header = Header::new(word_at(image, 4), word_at(image, 8), Counts::read(image)).ok_or(
            HeaderFault::Range,
        )?;
        if !header.laid(image) {
            return Err(HeaderFault::Layout);
        }
        Ok(header)
    }
}
