// Why a line of a script gives no call.
ghost use Rattle.std.specs.Prelude.{◌≡◌, Some, alloc_error};
ghost use Rattle.script.specs.Faults.{fault_text};
ghost use Rattle.script.specs.declared.trouble.Trouble.TheVariants.{Line, Memory};

use std::alloc::{AllocError, AllocFailed};
use std::fmt;

// Why a line is no call, with the words that are to blame.
#[derive(Clone, Copy)]
pub enum LineFault<'a> {
    UnknownCall(&'a str),
    UnknownCheck(&'a str),
    NothingToCheck,
    NoNumber(&'a str),
    NoMark(&'static str),
    SecondMark(&'static str),
    UnknownRelation(&'a str),
    NothingToBind,
}

impl fmt::Display for LineFault<'_> {
    ghost output = { λ f. Some (fault_text f) };

    fn fmt<W: fmt::Write>(&self, f: &mut fmt::Formatter<W>) -> fmt::Result {
        match self {
            LineFault::UnknownCall(word) => write!(f, "unknown call `{word}`"),
            LineFault::UnknownCheck(word) => write!(f, "unknown call `check {word}`"),
            LineFault::NothingToCheck => write!(f, "`check` wants `formula` or `rule`"),
            LineFault::NoNumber(word) => write!(f, "`{word}` is no number that fits 32 bits"),
            LineFault::NoMark(mark) => write!(f, "`{mark}` is missing between the sides"),
            LineFault::SecondMark(mark) => write!(f, "`{mark}` is repeated"),
            LineFault::UnknownRelation(word) => write!(f, "unknown relation `{word}`"),
            LineFault::NothingToBind => write!(
                f,
                "`bind` wants a relation, a variable and two rows"
            ),
        }
    }
}

// Why a line gives no call. Only want of memory ends the run.
#[derive(Drop)]
pub enum Trouble<'a> {
    Line(LineFault<'a>),
    Memory(AllocError),
}

impl<'a> From<LineFault<'a>> for Trouble<'a> {
    ghost from_gives = { λ f r. r ≡ Line f };

    fn from(fault: LineFault<'a>) -> Trouble<'a> {
        Trouble::Line(fault)
    }
}

impl<'a> From<AllocError> for Trouble<'a> {
    ghost from_gives = { λ e r. r ≡ Memory e };

    fn from(error: AllocError) -> Trouble<'a> {
        Trouble::Memory(error)
    }
}

impl<'a, T: Drop> From<AllocFailed<T>> for Trouble<'a> {
    ghost from_gives = { λ _ r. r ≡ Memory alloc_error };

    fn from(refused: AllocFailed<T>) -> Trouble<'a> {
        Trouble::Memory(refused.into())
    }
}
