// The functions that make the segments of a firing.
use std::fmt;

// By the numbers that the module gives them.
#[derive(Clone, Copy, PartialEq, Eq, Debug)]
pub(crate) enum Segment {
    Ramp = 1,
    Hold = 2,
    Off = 3,
    FullPower = 4,
}

// In their places in the module's table.
pub(crate) const TABLE: [Segment; 4] = [
    Segment::Ramp,
    Segment::Hold,
    Segment::Off,
    Segment::FullPower,
];

impl fmt::Display for Segment {
    fn fmt<W: fmt::Write>(&self, f: &mut fmt::Formatter<W>) -> fmt::Result {
        f.write_str(match self {
            Segment::Ramp => "ramp",
            Segment::Hold => "hold",
            Segment::Off => "off",
            Segment::FullPower => "full power",
        })
    }
}

// A number that should be a function's.
#[derive(Clone, Copy, PartialEq, Eq, Debug)]
pub(crate) struct Function(pub(crate) u32);

impl From<Segment> for Function {
    fn from(segment: Segment) -> Function {
        Function(segment as u32)
    }
}

impl Function {
    // The segment that it makes, if it makes one.
    fn segment(self) -> Option<Segment> {
        TABLE.into_iter().find(|segment| *segment as u32 == self.0)
    }
}

impl fmt::Display for Function {
    fn fmt<W: fmt::Write>(&self, f: &mut fmt::Formatter<W>) -> fmt::Result {
        let Function(number) = *self;
        match self.segment() {
            Some(segment) => write!(f, "{number} ('{segment}')"),
            None => write!(f, "{number} ('unknown')"),
        }
    }
}
