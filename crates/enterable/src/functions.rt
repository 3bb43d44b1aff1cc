// The two sets of functions.
ghost use Rattle.std.specs.Prelude.{◌≡◌, ◌<◌, true, false, not, ◌||◌, replicate, slice_set, slice_index_or};
ghost use Rattle.enterable.specs.inside.Rounds.{enters, enters_through};

// The functions that a run can enter at all, and those that it can enter through a pointer: arrays as long as a module's
// list of functions may be, since the board has no heap.
#[derive(Clone, Copy)]
pub struct EnterableFunctions {
    all: [bool; 64],
    through: [bool; 64],
}

impl EnterableFunctions {
    pub fn enters(&self, f: u32) -> bool
        ensures { result ≡ slice_index_or self.now.all f false }
    {
        self.all.get(f as usize).copied().unwrap_or(false)
    }

    pub fn enters_through(&self, f: u32) -> bool
        ensures { result ≡ slice_index_or self.now.through f false }
    {
        self.through.get(f as usize).copied().unwrap_or(false)
    }

    // Function 0 alone.
    pub(crate) fn first() -> EnterableFunctions
        ensures { result ≡ record { all = slice_set (replicate 64 false) 0 true; through = replicate 64 false } }
    {
        let mut first = EnterableFunctions {
            all: [false; 64],
            through: [false; 64],
        };
        first.all[0] = true;
        first
    }

    // Puts in a function that is called, and says whether that is new.
    pub(crate) fn add_called(&mut self, f: u32) -> bool
        requires { f < 64 }
        ensures sets { self.new ≡ record self.old { all = slice_set self.old.all f true } }
        ensures new { result ≡ not (enters self.old f) }
    {
        let new = !self.enters(f);
        self.all[f as usize] = true;
        new
    }

    // Puts in a function whose address is taken, and says whether that is new.
    pub(crate) fn add_taken(&mut self, f: u32) -> bool
        requires { f < 64 }
        ensures sets { self.new ≡ record self.old { all = slice_set self.old.all f true; through = slice_set self.old.through f true } }
        ensures new { result ≡ (not (enters self.old f) || not (enters_through self.old f)) }
    {
        let new = !self.enters_through(f);
        self.through[f as usize] = true;
        // The call first: it has to be made even where the address is new.
        self.add_called(f) || new
    }
}
