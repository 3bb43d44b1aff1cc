// Lists, as they are written.
ghost use Rattle.std.specs.Prelude.{Some, flat_map};
ghost use Rattle.board.specs.Shown.{event_line, local_word};

use machine::event::Event;
use machine::held::Held;
use std::fmt;

// Events, a line each.
#[derive(Clone, Copy)]
pub(crate) struct EventLines<'a>(pub(crate) &'a [Event]);

impl<'a> fmt::Display for EventLines<'a> {
    ghost output = { λ l. Some (flat_map event_line l.0.now) };

    fn fmt<W: fmt::Write>(&self, f: &mut fmt::Formatter<W>) -> fmt::Result {
        for event in self.0 {
            write!(f, "event {event}\n")?;
        }
        Ok(())
    }
}

// The values of a frame's locals, each after a blank.
#[derive(Clone, Copy)]
pub(crate) struct Locals<'a>(pub(crate) &'a [Held]);

impl<'a> fmt::Display for Locals<'a> {
    ghost output = { λ l. Some (flat_map local_word l.0.now) };

    fn fmt<W: fmt::Write>(&self, f: &mut fmt::Formatter<W>) -> fmt::Result {
        for value in self.0 {
            let value = value.value();
            write!(f, " {value}")?;
        }
        Ok(())
    }
}
