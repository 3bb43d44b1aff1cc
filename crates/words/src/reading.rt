// One word after another is read from what is left of a line.
ghost use Rattle.std.specs.Prelude.{◌≡◌, drop};
ghost use Rattle.std.specs.Result.{result_map_both};
ghost use Rattle.words.specs.Forms.{ends, next_word, then};
ghost use Rattle.words.specs.Words.{decimal};

use crate::fault::Fault;
use crate::number::number_of;
use crate::words::Words;

// Each call takes one word, if any is left, whatever it answers.
impl<'a> Words<'a> {
    pub fn word(&mut self) -> Result<&'a [u8], Fault>
        ensures word { result_map_both (λ w. w.now) (λ e. e) result ≡ next_word self.old }
        ensures left { self.new ≡ drop 1 self.old }
    {
        self.next().ok_or(Fault::Count)
    }

    pub fn number(&mut self, most: u32) -> Result<u32, Fault>
        ensures number { result ≡ then (next_word self.old) (decimal most) }
        ensures left { self.new ≡ drop 1 self.old }
    {
        number_of(self.word()?, most)
    }

    #[tactic(auto, unfolding(crate::specs::Forms::ends))]
    pub fn end(&mut self) -> Result<(), Fault>
        ensures end { result ≡ ends tt self.old }
        ensures left { self.new ≡ drop 1 self.old }
    {
        match self.next() {
            Some(_) => Err(Fault::Count),
            None => Ok(()),
        }
    }
}
