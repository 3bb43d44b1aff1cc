// What a transcript gets for a line of its script.
ghost use Rattle.std.specs.Prelude.{Some};
ghost use Rattle.desk.specs.Shown.{shown_told};

use board::report::Report;
use module::fault::ModuleFault;
use replay::answer::Answer;
use std::fmt;
use words::fault::Fault;

#[derive(Drop)]
pub enum Told {
    // Of an empty line or a comment nothing.
    Silent,
    // What a line about stores gets.
    Answered(Answer),
    // What a line about runs gets.
    Ran(Report),
    // The line's number, and what is wrong with it.
    Faulty(u64, Fault),
    Read(Result<(), ModuleFault>),
    // The lines that tell of a module.
    Text(String),
}

impl fmt::Display for Told {
    ghost output = { λ t. Some (shown_told t) };

    fn fmt<W: fmt::Write>(&self, f: &mut fmt::Formatter<W>) -> fmt::Result {
        match self {
            Told::Silent => Ok(()),
            Told::Answered(answer) => write!(f, "{answer}\n"),
            Told::Ran(report) => write!(f, "{report}"),
            Told::Faulty(number, fault) => write!(f, "error line {number}: {fault}\n"),
            Told::Read(Ok(())) => f.write_str("accepted\n"),
            Told::Read(Err(fault)) => {
                let refusal = fault.refusal();
                write!(f, "refused {refusal}\n")
            }
            Told::Text(text) => write!(f, "{text}"),
        }
    }
}
