// The walk for cycles.
ghost use Rattle.std.specs.Prelude.{◌≡◌, ℕ, ◌≤◌, true, false, List, length, drop};
ghost use Rattle.unification.specs.Graph.{Sat};
ghost use Rattle.unification.specs.Memory.{Has};
ghost use Rattle.unification.specs.Finite.{Above, Ended, Fin};
ghost use Rattle.unification.specs.Close.{Solved};
ghost use Rattle.unification.specs.Unifiers.{graph_of, size_of, links_of, rows_of};

use super::Unifier;
use cells::arity_of;

// What the walk knows of a place.
#[derive(Clone, Copy)]
enum Mark {
    // not yet met
    New,
    // being walked
    Open,
    // has its row
    Done,
}

impl Unifier<'_> {
    // Walks the n rows that begin at i, through the links: true if each comes to an end.
    fn finite_rows(&self, marks: &mut [Mark], i: u32, n: usize) -> bool
        requires left { Has n (drop i self.now.cells.now) }
        requires sheet { size_of self.now ≤ length marks.old }
        requires above { Above (graph_of self.now) (links_of self.now) marks.old (rows_of self.now i n) }
        requires ended { Ended (graph_of self.now) (links_of self.now) marks.old }
        ensures { Fin (graph_of self.now) (links_of self.now)
            marks.old marks.new (rows_of self.now i n) result }
    {
        if n == 0 {
            return true;
        }
        let (x, c) = self.head(i);
        if !self.kinds.binds(c) {
            match marks[x as usize] {
                Mark::Open => return false,
                Mark::New => {
                    marks[x as usize] = Mark::Open;
                    if !self.finite_rows(marks, x + 1, arity_of(c)) {
                        return false;
                    }
                    marks[x as usize] = Mark::Done;
                }
                Mark::Done => {}
            }
        }
        self.finite_rows(marks, self.next(i, n), n - 1)
    }

    // Whether every bound variable has a row: no variable stands inside its own.
    pub(super) fn is_solvable(&self) -> bool
        ensures yes { result ≡ true → Solved (graph_of self.now) (links_of self.now) }
        ensures no { result ≡ false → (σ : ℕ → List ℕ) → Sat (graph_of self.now) σ (links_of self.now) → ⊥ }
    {
        let mut marks = [Mark::New; 512];
        for (from, _) in self.links.as_slice() {
            if self.kinds.binds(*from) {
                let (root, cell) = self.resolve(*from);
                if !self.kinds.binds(cell) && !self.finite_rows(&mut marks, root, 1) {
                    return false;
                }
            }
        }
        true
    }
}
