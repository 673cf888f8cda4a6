// The check of a row.
ghost use Rattle.std.specs.Prelude.{◌≡◌, length, MatchOption};
ghost use Rattle.cells.specs.Cells.{AllCells};
ghost use Rattle.cells.specs.Rows.{Ends};
ghost use Rattle.cells.specs.Checks.{FirstBad, RowAnswer};

use crate::word::{arity_of, is_cell};
use refusals::CellFault;

// The lowest position whose word is no cell.
fn find_bad(cells: &[u32]) -> Option<usize>
    ensures { MatchOption result (AllCells cells.now) (λ p. FirstBad cells.now p) }
{
    cells.iter().position(|w| !is_cell(*w))
}

// Where the whole row that begins at `at` ends, if one begins there.
pub fn term_end(cells: &[u32], at: usize) -> Option<usize>
    ensures { Ends cells.now at result }
{
    let rest = cells.get(at..)?;
    // the cells still to come, less one for each row still to come
    let mut spare = rest.len().checked_sub(1)?;
    for (i, w) in rest.iter().enumerate() {
        let more = arity_of(*w);
        if more > spare {
            return None;
        }
        spare -= more;
        if spare == rest.len() - (i + 1) {
            return Some(at + i + 1);
        }
    }
    None
}

// Whether the words are one whole row of 1 to `limit` cells, and if not, why.
pub fn check_row(cells: &[u32], limit: usize) -> Result<(), CellFault>
    ensures { RowAnswer limit cells.now result }
{
    if cells.is_empty() || cells.len() > limit {
        return Err(CellFault::Length(cells.len()));
    }
    if let Some(p) = find_bad(cells) {
        return Err(CellFault::NoCell(p));
    }
    let Some(end) = term_end(cells, 0) else {
        return Err(CellFault::EndsEarly(cells.len()));
    };
    if end < cells.len() {
        return Err(CellFault::LeftOver(end));
    }
    Ok(())
}
