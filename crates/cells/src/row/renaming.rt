// Renaming the variables of a rule's side.
ghost use Rattle.std.specs.Prelude.{◌≡◌, ◌≤◌, map, length};
ghost use Rattle.cells.specs.Cells.{row, words};
ghost use Rattle.cells.specs.Substitutions.{rename};
ghost use Rattle.cells.specs.Variables.{index, renamed_word};
ghost use Rattle.cells.specs.Records.{row_words};

use super::{Row, RuleSide};
use crate::names::place_of;
use crate::word::VARIABLE;
use arrayvec::ArrayVec;

// A variable by its place in the list.
#[tactic(auto, using(crate::proofs::Listing::index_position, crate::proofs::Listing::index_le))]
fn rename_word(w: u32, list: &[u32]) -> u32
    requires { length list.now ≤ 60 }
    ensures { result ≡ renamed_word (index list.now) w }
{
    if w >= VARIABLE {
        VARIABLE + place_of(list, w - VARIABLE).unwrap_or(list.len()) as u32
    } else {
        w
    }
}

fn rename_words(cells: &mut [u32], list: &[u32])
    requires { length list.now ≤ 60 }
    ensures { cells.new ≡ map (renamed_word (index list.now)) cells.old }
{
    for w in cells.iter_mut() {
        *w = rename_word(*w, list);
    }
}

impl RuleSide {
    // The row with each variable renamed to its place in the list.
    pub(crate) fn renamed(&self, names: &ArrayVec<u32, 60>) -> RuleSide
        ensures { row_words result ≡ words (rename (index names.now.items) (row (row_words self.now))) }
    {
        let mut cells = self.cells;
        let count = self.count;
        rename_words(&mut cells[0..count], names);
        Row { cells, count }
    }
}
