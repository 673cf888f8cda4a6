// Closing the links under equations.
ghost use Rattle.std.specs.Prelude.{◌≡◌, ◌≢◌, [], ◌∷◌, ◌++◌, length, drop};
ghost use Rattle.unification.specs.Memory.{Has};
ghost use Rattle.unification.specs.Close.{Out};
ghost use Rattle.unification.specs.Unifiers.{graph_of, links_of, rows_of, Root};

use super::Unifier;
use cells::arity_of;

impl Unifier<'_> {
    // Lets y stand for x, and for all that x stood for.
    fn link(&mut self, x: u32, y: u32)
        requires from { Root self.old x }
        requires to { Root self.old y }
        requires apart { x ≢ y }
        ensures cells { self.new.cells ≡ self.old.cells }
        ensures kinds { self.new.kinds ≡ self.old.kinds }
        ensures links { links_of self.new ≡ links_of self.old ++ (x, y) ∷ [] }
    {
        self.links.push((x, y));
    }

    // Makes one the n rows that begin at i and the n rows that begin at j, if that is possible.
    pub(super) fn unify_rows(&mut self, i: u32, j: u32, n: usize) -> bool
        requires left { Has n (drop i self.old.cells.now) }
        requires right { Has n (drop j self.old.cells.now) }
        ensures cells { self.new.cells ≡ self.old.cells }
        ensures kinds { self.new.kinds ≡ self.old.kinds }
        ensures out { Out (graph_of self.old) (links_of self.old) (links_of self.new)
            (rows_of self.old i n) (rows_of self.old j n) result }
    {
        if n == 0 {
            return true;
        }
        let (x, c) = self.head(i);
        let (y, d) = self.head(j);
        if x != y {
            if self.kinds.binds(c) {
                self.link(x, y);
            } else if self.kinds.binds(d) {
                self.link(y, x);
            } else if c != d {
                return false;
            } else {
                self.link(x, y);
                if !self.unify_rows(x + 1, y + 1, arity_of(c)) {
                    return false;
                }
            }
        }
        let next_i = self.next(i, n);
        let next_j = self.next(j, n);
        self.unify_rows(next_i, next_j, n - 1)
    }
}
