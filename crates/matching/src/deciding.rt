// Deciding the relations of a left side to a formula.
ghost use Rattle.std.specs.Prelude.{◌≤◌, Decides};
ghost use Rattle.cells.specs.Cells.{row};
ghost use Rattle.cells.specs.Records.{row_words};
ghost use Rattle.cells.specs.Variables.{Variant};
ghost use Rattle.matching.specs.Relations.{General, Instance};

use crate::matcher::match_front;
use cells::{Formula, Row, RuleSide};
use substitution::Bindings;

// Whether some substitution of the pattern's variables turns it into the target.
#[tactic(auto, using(crate::proofs::Generality::decided))]
fn turns<const M: usize, const N: usize>(pattern: &Row<M>, target: &Row<N>) -> bool
    requires { M ≤ 256 }
    ensures { Decides result (General (row (row_words pattern.now)) (row (row_words target.now))) }
{
    let target = target.cells();
    match_front(pattern.cells(), target, 0, &mut Bindings::none()) == Some(target.len())
}

// Whether the left side is general for the formula.
pub fn is_general(left: &RuleSide, formula: &Formula) -> bool
    ensures { Decides result (General (row (row_words left.now)) (row (row_words formula.now))) }
{
    turns(left, formula)
}

// Whether the left side is an instance of the formula.
pub fn is_instance(left: &RuleSide, formula: &Formula) -> bool
    ensures { Decides result (Instance (row (row_words left.now)) (row (row_words formula.now))) }
{
    turns(formula, left)
}

// Whether the left side is a variant of the formula: each is general for the other.
#[tactic(auto, using(crate::proofs::Relating::variant_general))]
pub fn is_variant(left: &RuleSide, formula: &Formula) -> bool
    ensures { Decides result (Variant (row (row_words left.now)) (row (row_words formula.now))) }
{
    is_general(left, formula) && is_instance(left, formula)
}
