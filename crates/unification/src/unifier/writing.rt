// Writing what the links make of a row, with its variables numbered.
ghost use Rattle.std.specs.Prelude.{drop};
ghost use Rattle.unification.specs.Memory.{Has};
ghost use Rattle.unification.specs.Number.{Wrote};
ghost use Rattle.unification.specs.Unifiers.{graph_of, links_of, rows_of};

use super::Unifier;
use crate::form::{Form, TooLarge};
use cells::{VARIABLE, arity_of};

impl Unifier<'_> {
    // Adds the n rows that begin at i to the form; refused where it would pass 256 cells or 64 variables.
    pub(super) fn write_rows(&self, form: &mut Form, i: u32, n: usize) -> Result<(), TooLarge>
        requires { Has n (drop i self.now.cells.now) }
        ensures { Wrote (graph_of self.now) (links_of self.now)
            (rows_of self.now i n) form.old form.new result }
    {
        if n == 0 {
            return Ok(());
        }
        let (x, c) = self.head(i);
        if self.kinds.binds(c) {
            let number = form.number_of(c)?;
            form.push(VARIABLE + number)?;
        } else {
            form.push(c)?;
            self.write_rows(form, x + 1, arity_of(c))?;
        }
        self.write_rows(form, self.next(i, n), n - 1)
    }
}
