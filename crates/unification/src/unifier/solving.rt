// Unifying two rows of the memory, and their common form.
ghost use Rattle.std.specs.Prelude.{◌≡◌, ◌<◌, true, [], ◌∷◌, length};
ghost use Rattle.unification.specs.Close.{Out, Solved, Decided};
ghost use Rattle.unification.specs.Number.{found_in, FormFound};
ghost use Rattle.unification.specs.Unifiers.{graph_of, size_of, links_of};

use super::Unifier;
use crate::form::{Form, TooLarge};

impl Unifier<'_> {
    // Whether some replacement of the variables that may be bound makes one row of those at p and q.
    pub fn unify(&mut self, p: u32, q: u32) -> bool
        requires left { p < size_of self.old }
        requires right { q < size_of self.old }
        requires links { links_of self.old ≡ [] }
        ensures cells { self.new.cells ≡ self.old.cells }
        ensures kinds { self.new.kinds ≡ self.old.kinds }
        ensures decides { Decided (graph_of self.old) p q result }
        ensures out { result ≡ true → Out (graph_of self.old) [] (links_of self.new) (p ∷ []) (q ∷ []) true }
        ensures solved { result ≡ true → Solved (graph_of self.old) (links_of self.new) }
    {
        self.unify_rows(p, q, 1) && self.is_solvable()
    }

    // Whether the rows at p and q have a common form. With its variables numbered it is written to `form`, which must be empty.
    pub fn common_form(&mut self, p: u32, q: u32, form: &mut Form) -> Result<bool, TooLarge>
        requires left { p < size_of self.old }
        requires right { q < size_of self.old }
        requires links { links_of self.old ≡ [] }
        requires cells { form.old.cells.items ≡ [] }
        requires names { form.old.names.items ≡ [] }
        ensures { FormFound (graph_of self.old) p q (found_in form.new result) }
    {
        if !self.unify(p, q) {
            return Ok(false);
        }
        self.write_rows(form, p, 1)?;
        Ok(true)
    }
}
