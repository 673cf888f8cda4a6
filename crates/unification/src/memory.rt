// A left side and a formula in one memory.
ghost use Rattle.std.specs.Prelude.{◌≡◌, ◌++◌, map};
ghost use Rattle.cells.specs.Cells.{IsCell, cell, row};
ghost use Rattle.cells.specs.Records.{row_words};
ghost use Rattle.unification.specs.Codes.{tagged};

use crate::kinds::RULE;
use arrayvec::ArrayVec;
use cells::{Formula, RuleSide, VARIABLE};

// The word of a left side's cell, with its variable as a rule variable.
fn rule_word(w: u32) -> u32
    requires { IsCell w }
    ensures { result ≡ tagged 0x90000000 (cell w) }
{
    if w >= VARIABLE {
        RULE + (w - VARIABLE)
    } else {
        w
    }
}

// The left side, and behind it the formula.
pub fn joined(left: &RuleSide, formula: &Formula) -> ArrayVec<u32, 316>
    ensures { result.items ≡ map (tagged 0x90000000) (row (row_words left.now)) ++ row_words formula.now }
{
    let mut cells = ArrayVec::new();
    for w in left.cells() {
        cells.push(rule_word(*w));
    }
    cells.try_extend_from_slice(formula.cells()).unwrap();
    cells
}
