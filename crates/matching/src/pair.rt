// A left side and a formula, checked together.
ghost use Rattle.matching.specs.Pairs.{PairMade};

use crate::fault::MatchFault;
use cells::{Formula, RuleSide, check_left};

// The two rows, each as it came.
#[derive(Clone, Copy, Drop)]
pub struct CheckedPair {
    pub left: RuleSide,
    pub formula: Formula,
}

// Checks the left side first, then the formula.
pub fn check_pair(left: &[u32], formula: &[u32]) -> Result<CheckedPair, MatchFault>
    ensures { PairMade left.now formula.now result }
{
    let left = check_left(left)?;
    let formula = Formula::new(formula)?;
    Ok(CheckedPair { left, formula })
}
