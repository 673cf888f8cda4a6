// The variables of rows, by first occurrence.
ghost use Rattle.std.specs.Prelude.{◌≡◌, ◌==◌, length, position};
ghost use Rattle.cells.specs.Cells.{row};
ghost use Rattle.cells.specs.Variables.{lacking, variables};
ghost use Rattle.cells.specs.Records.{row_words};

use crate::row::Row;
use crate::word::VARIABLE;
use arrayvec::ArrayVec;

// Where v stands in the list.
pub fn place_of(list: &[u32], v: u32) -> Option<usize>
    ensures { result ≡ position (λ u. u == v) list.now }
{
    list.iter().position(|u| *u == v)
}

// Whether the word is a variable that the list lacks. This is asked for each cell of a row, and is to cost no call.
#[inline(always)]
fn lacks(names: &[u32], w: u32) -> bool
    ensures { result ≡ lacking names.now w }
{
    w >= VARIABLE && !names.contains(&(w - VARIABLE))
}

// The lowest position whose variable is not in the list.
pub(crate) fn find_new(names: &[u32], cells: &[u32]) -> Option<usize>
    ensures { result ≡ position (lacking names.now) cells.now }
{
    cells.iter().position(|w| lacks(names, *w))
}

impl<const N: usize> Row<N> {
    // The row's variables, each v once, in the order in which the row has it first.
    pub(crate) fn names(&self) -> ArrayVec<u32, N>
        ensures { result.items ≡ variables (row (row_words self.now)) }
    {
        let mut names = ArrayVec::new();
        for w in self.cells() {
            if lacks(&names, *w) {
                names.push(*w - VARIABLE);
            }
        }
        names
    }

    // How many different variables the row has.
    pub fn variable_count(&self) -> usize
        ensures { result ≡ length (variables (row (row_words self.now))) }
    {
        self.names().len()
    }
}
