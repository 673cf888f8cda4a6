// Words as cells, and the kinds of variables.
ghost use Rattle.std.specs.Prelude.{◌≡◌};
ghost use Rattle.cells.specs.Cells.{is_cell, cell, arity};

// The first variable cell; v is counted from here.
pub const VARIABLE: u32 = 0x8000_0000;

// The variables of a rule, of a formula and of the tree are three kinds: an equal v never lets one pass as another.
// A row does not know whose it is, so who does wraps the number.
#[derive(Clone, Copy)]
pub struct RuleVar(pub u32);

#[derive(Clone, Copy)]
pub struct FormulaVar(pub u32);

#[derive(Clone, Copy)]
pub struct TreeVar(pub u32);

// Whether a word is a cell.
pub fn is_cell(w: u32) -> bool
    ensures { result ≡ is_cell w }
{
    w < 0x0009_0000 || (w >= VARIABLE && w < VARIABLE + 64)
}

// How many rows follow the cell as its arguments.
pub fn arity_of(w: u32) -> usize
    ensures { result ≡ arity (cell w) }
{
    if w < VARIABLE {
        (w / 0x1_0000) as usize
    } else {
        0
    }
}
