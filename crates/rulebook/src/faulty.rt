// A line that is no call, as it is printed.
ghost use Rattle.std.specs.Prelude.{Some};
ghost use Rattle.rulebook.specs.Printing.{faulty_text};

use script::LineFault;
use std::fmt;

// Lines are counted from 1.
#[derive(Clone, Copy)]
pub struct FaultyLine<'a> {
    pub number: usize,
    pub fault: LineFault<'a>,
}

impl fmt::Display for FaultyLine<'_> {
    ghost output = { λ l. Some (faulty_text l.number l.fault) };

    fn fmt<W: fmt::Write>(&self, f: &mut fmt::Formatter<W>) -> fmt::Result {
        write!(f, "line {}: {}", self.number, self.fault)
    }
}
