// A checked rule.
ghost use Rattle.std.specs.Prelude.{◌≡◌, true, take};
ghost use Rattle.cells.specs.Rules.{sides, rule_ok};

use crate::names::find_new;
use crate::row::RuleSide;
use crate::side::{check_left, check_side};
use refusals::{RuleFault, Side};

// Two checked sides that go together, numbered.
#[derive(Clone, Copy, Drop)]
pub struct Rule {
    left: RuleSide,
    right: RuleSide,
    ghost checked: { rule_ok (sides (take left.count left.cells) (take right.count right.cells)) ≡ true },
}

impl Rule {
    ghost use Rattle.cells.specs.Rules.{Sides, size};
    ghost use Rattle.cells.specs.Records.{RuleMade, rule_sides};

    // The numbered rule, or why the sides are refused.
    pub fn new(left: &[u32], right: &[u32]) -> Result<Rule, RuleFault>
        ensures { RuleMade (sides left.now right.now) result }
    {
        let from = check_left(left)?;
        let to = check_side(Side::Right, right)?;
        let names = from.names();
        if let Some(place) = find_new(&names, to.cells()) {
            return Err(RuleFault::NewVariable(place));
        }
        Ok(Rule {
            left: from.renamed(&names),
            right: to.renamed(&names),
        })
    }

    pub fn left(&self) -> &[u32]
        ensures { result.now ≡ (rule_sides self.now).left }
    {
        self.left.cells()
    }

    pub fn right(&self) -> &[u32]
        ensures { result.now ≡ (rule_sides self.now).right }
    {
        self.right.cells()
    }

    // How many cells both sides have.
    pub fn size(&self) -> usize
        ensures { result ≡ size (rule_sides self.now) }
    {
        self.left().len() + self.right().len()
    }
}
