// A checked row.
ghost use Rattle.std.specs.Prelude.{◌≡◌, ◌≤◌, length, take};
ghost use Rattle.cells.specs.Cells.{AllCells, row};
ghost use Rattle.cells.specs.Rows.{Whole};

use crate::check::check_row;
use refusals::CellFault;

// A whole row of at most N cells. Only the check makes one, so nothing above checks it again.
#[derive(Clone, Copy, Drop)]
pub struct Row<const N: usize> {
    cells: [u32; N],
    count: usize,
    ghost fits: { count ≤ N },
    ghost good: { AllCells (take count cells) },
    ghost whole: { Whole (row (take count cells)) },
}

pub type Formula = Row<256>;

pub type RuleSide = Row<60>;

pub mod renaming;

// An array that begins with the words.
fn hold<const N: usize>(cells: &[u32]) -> [u32; N]
    requires { length cells.now ≤ N }
    ensures { take (length cells.now) result ≡ cells.now }
{
    let mut held = [0; N];
    held[..cells.len()].copy_from_slice(cells);
    held
}

impl<const N: usize> Row<N> {
    ghost use Rattle.cells.specs.Records.{RowMade, row_words};

    // The checked words, or why they are refused.
    pub fn new(cells: &[u32]) -> Result<Row<N>, CellFault>
        ensures { RowMade N cells.now result }
    {
        check_row(cells, N)?;
        Ok(Row {
            cells: hold(cells),
            count: cells.len(),
        })
    }

    pub fn cells(&self) -> &[u32]
        ensures value { result.now ≡ row_words self.now }
        ensures good { AllCells result.now }
        ensures whole { Whole (row result.now) }
    {
        &self.cells[..self.count]
    }
}
