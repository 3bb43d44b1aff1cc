// How a run stands.
ghost use Rattle.std.specs.Prelude.{Some};
ghost use Rattle.machine.specs.Statuses.{status_text};

use std::fmt;

#[derive(Clone, Copy, PartialEq, Eq, Debug)]
pub enum Status {
    Running,
    Ended,
    Stopped,
}

impl fmt::Display for Status {
    ghost output = { λ s. Some (status_text s) };

    fn fmt<W: fmt::Write>(&self, f: &mut fmt::Formatter<W>) -> fmt::Result {
        f.write_str(match self {
            Status::Running => "running",
            Status::Ended => "ended",
            Status::Stopped => "stopped",
        })
    }
}
