// Places, and what stands for them.
ghost use Rattle.std.specs.Prelude.{◌≡◌, ◌≢◌, ◌+◌, ◌-◌, ◌<◌, ◌≤◌, false, [], ◌∷◌, length, drop};
ghost use Rattle.unification.specs.Graph.{find, norm};
ghost use Rattle.unification.specs.Codes.{is_var};
ghost use Rattle.unification.specs.Memory.{binds, size, Has, cell_at, Memory};
ghost use Rattle.unification.specs.Close.{Place};
ghost use Rattle.unification.specs.Unifiers.{graph_of, size_of, links_of, rows_of, Root};

use super::Unifier;
use crate::kinds::Kinds;
use arrayvec::ArrayVec;
use cells::{VARIABLE, term_end};

impl<'a> Unifier<'a> {
    // No two places are one yet.
    pub fn new(cells: &'a [u32], kinds: Kinds) -> Unifier<'a>
        requires memory { Memory cells.now }
        requires small { length cells.now ≤ 512 }
        ensures cells { result.cells.now ≡ cells.now }
        ensures kinds { result.kinds ≡ kinds }
        ensures links { result.links.items ≡ [] }
    {
        Unifier {
            cells,
            kinds,
            links: ArrayVec::new(),
        }
    }

    // The place that stands for a place.
    fn root(&self, place: u32) -> u32
        ensures { result ≡ find (links_of self.now) place }
    {
        self.links
            .as_slice()
            .iter()
            .fold(place, |at, (from, to)| if at == *from { *to } else { at })
    }

    // The cell at a place: a variable's own word, or what stands at the position.
    fn cell(&self, place: u32) -> u32
        requires { is_var place ≡ false → place < size_of self.now }
        ensures { result ≡ cell_at self.now.cells.now place }
    {
        if place >= VARIABLE {
            place
        } else {
            self.cells[place as usize]
        }
    }

    // The place that stands for a place, and its cell.
    pub(super) fn resolve(&self, place: u32) -> (u32, u32)
        requires { Place (graph_of self.now) (size_of self.now) place }
        ensures place { result.0 ≡ find (links_of self.now) place }
        ensures root { Root self.now result.0 }
        ensures cell { result.1 ≡ cell_at self.now.cells.now result.0 }
        ensures low { binds self.now.kinds result.1 ≡ false → result.0 < size_of self.now }
    {
        let root = self.root(place);
        (root, self.cell(root))
    }

    // The same for the row at a position.
    pub(super) fn head(&self, at: u32) -> (u32, u32)
        requires { at < size_of self.now }
        ensures place { result.0 ≡ norm (graph_of self.now) (links_of self.now) at }
        ensures root { Root self.now result.0 }
        ensures cell { result.1 ≡ cell_at self.now.cells.now result.0 }
        ensures low { binds self.now.kinds result.1 ≡ false → result.0 < size_of self.now }
    {
        let cell = self.cells[at as usize];
        if self.kinds.binds(cell) {
            self.resolve(cell)
        } else {
            self.resolve(at)
        }
    }

    // Where the rows behind the first of n begin. There are none behind the last, so its end is not looked for.
    pub(super) fn next(&self, at: u32, n: usize) -> u32
        requires low { at < size_of self.now }
        requires some { n ≢ 0 }
        requires rows { Has n (drop at self.now.cells.now) }
        ensures places { rows_of self.now at n ≡ at ∷ rows_of self.now result (n - 1) }
        ensures rest { Has (n - 1) (drop result self.now.cells.now) }
    {
        if n == 1 {
            at
        } else {
            end_at(self.cells, at as usize) as u32
        }
    }
}

// A row begins there, so `term_end` finds its end.
fn end_at(cells: &[u32], at: usize) -> usize
    requires low { at < length cells.now }
    requires row { Has 1 (drop at cells.now) }
    ensures end { result ≡ at + size 1 (drop at cells.now) }
    ensures within { result ≤ length cells.now }
{
    term_end(cells, at).unwrap()
}
