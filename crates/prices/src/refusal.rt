ghost use Rattle.std.specs.Prelude.{◌≡◌, Some};
ghost use Rattle.pages.specs.declared.stop.Stop.TheVariants.{Refused};
ghost use Rattle.prices.specs.Refusals.{fault_text, refusal_text};

use digits::ReadFault;
use pages::Stop;
use std::fmt;

// Why no page is printed.
#[derive(Clone, Copy)]
pub enum Fault {
    Line(ReadFault),
    NoNewline,
    TooManyBytes,
    UnknownList,
}

impl fmt::Display for Fault {
    ghost output = { λ fault. Some (fault_text fault) };

    fn fmt<W: fmt::Write>(&self, f: &mut fmt::Formatter<W>) -> fmt::Result {
        match self {
            Fault::Line(ReadFault::Malformed) => write!(f, "malformed"),
            Fault::Line(ReadFault::TooLarge) => write!(f, "number too large"),
            Fault::NoNewline => write!(f, "no newline at its end"),
            Fault::TooManyBytes => write!(f, "more than 16384 bytes"),
            Fault::UnknownList => write!(f, "unknown list, not costs or zones"),
        }
    }
}

// Why, and at which line. Lines count from 1; what is wrong with no line in particular is at line 0.
#[derive(Clone, Copy)]
pub struct Refusal {
    pub line: usize,
    pub fault: Fault,
}

impl From<Refusal> for Stop<Refusal> {
    ghost from_gives = { λ refusal stop. stop ≡ Refused refusal };

    fn from(refusal: Refusal) -> Stop<Refusal> {
        Stop::Refused(refusal)
    }
}

// The refusal in one line.
impl fmt::Display for Refusal {
    ghost output = { λ refusal. Some (refusal_text refusal) };

    fn fmt<W: fmt::Write>(&self, f: &mut fmt::Formatter<W>) -> fmt::Result {
        let line = self.line;
        let fault = self.fault;
        writeln!(f, "line {line}: {fault}")
    }
}
