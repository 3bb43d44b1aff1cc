// The panel, which shares the regular memory with the run.
use crate::segment::Function;
use std::fmt;
use tables::places::Span;

// Writes a function's number over some words.
#[derive(Clone, Copy)]
pub(crate) struct Panel {
    pub(crate) function: Function,
    pub(crate) words: Span,
}

impl Panel {
    pub(crate) fn write(self, memory: &mut [u32]) {
        let Function(number) = self.function;
        let Span { low, high } = self.words;
        for word in memory.iter_mut().take(high as usize).skip(low as usize) {
            *word = number;
        }
    }
}

impl fmt::Display for Panel {
    fn fmt<W: fmt::Write>(&self, f: &mut fmt::Formatter<W>) -> fmt::Result {
        let (function, words) = (self.function, self.words);
        write!(
            f,
            "{function} over the words from address {} up to {}",
            words.low, words.high
        )
    }
}
