// Deciding whether a left side and a formula are unifiable.
ghost use Rattle.std.specs.Prelude.{Decides};
ghost use Rattle.cells.specs.Cells.{row};
ghost use Rattle.cells.specs.Records.{row_words};
ghost use Rattle.matching.specs.Relations.{Unifiable};

use crate::kinds::Kinds;
use crate::memory::joined;
use crate::unifier::Unifier;
use cells::{Formula, RuleSide};

// Whether the left side and the formula are unifiable.
pub fn is_unifiable(left: &RuleSide, formula: &Formula) -> bool
    ensures { Decides result (Unifiable (row (row_words left.now)) (row (row_words formula.now))) }
{
    let cells = joined(left, formula);
    Unifier::new(cells.as_slice(), Kinds::ALL).unify(0, left.cells().len() as u32)
}
