// The checks of a rule's sides.
ghost use Rattle.std.specs.Prelude.{◌≡◌, Ok, Err};
ghost use Rattle.cells.specs.Cells.{row};
ghost use Rattle.cells.specs.Rules.{bare};
ghost use Rattle.cells.specs.Records.{RowMade, LeftMade};

use crate::row::{Row, RuleSide};
use crate::word::VARIABLE;
use refusals::{RuleFault, Side, SideFault};

// A side's row, or its fault with the side.
pub(crate) fn check_side(side: Side, cells: &[u32]) -> Result<RuleSide, SideFault>
    ensures { elim result [ Ok x ↦ RowMade 60 cells.now (Ok x) | Err f ↦ (f.side ≡ side) × RowMade 60 cells.now (Err f.fault) ] }
{
    Row::new(cells).map_err(|fault| SideFault { side, fault })
}

// Whether the cells begin with a variable.
fn is_bare(cells: &[u32]) -> bool
    ensures { result ≡ bare (row cells.now) }
{
    cells.first().is_some_and(|w| *w >= VARIABLE)
}

// A left side that is no bare variable, or why it is refused.
pub fn check_left(cells: &[u32]) -> Result<RuleSide, RuleFault>
    ensures { LeftMade cells.now result }
{
    let left = check_side(Side::Left, cells)?;
    if is_bare(left.cells()) {
        return Err(RuleFault::BareVariable);
    }
    Ok(left)
}
