// Writing the common form of a left side and a formula.
ghost use Rattle.std.specs.Prelude.{◌≡◌, ◌<◌, ◌≤◌, [], length, MatchResult};
ghost use Rattle.cells.specs.Cells.{row};
ghost use Rattle.cells.specs.Records.{row_words};
ghost use Rattle.unification.specs.declared.fault.FormFault.TheVariants.{ShortBuffer};
ghost use Rattle.unification.specs.Number.{found_in};
ghost use Rattle.unification.specs.Forms.{Formed, FormAnswer};
ghost use Rattle.unification.specs.FormsOfRows.{RowsFormAnswer};

use crate::fault::FormFault;
use crate::form::{Form, TooLarge};
use crate::kinds::Kinds;
use crate::memory::joined;
use crate::unifier::Unifier;
use cells::{Formula, RuleSide};
use matching::check_pair;

// Whether there is a common form. It is written to `form`, which must be empty, and not to the buffer, which is written only if all of it fits.
fn form_of(left: &RuleSide, formula: &Formula, form: &mut Form) -> Result<bool, TooLarge>
    requires cells { form.old.cells.items ≡ [] }
    requires names { form.old.names.items ≡ [] }
    ensures { Formed (row (row_words left.now)) (row (row_words formula.now)) (found_in form.new result) }
{
    let cells = joined(left, formula);
    Unifier::new(cells.as_slice(), Kinds::ALL).common_form(0, left.cells().len() as u32, form)
}

// A buffer with room for fewer than 256 cells is refused, whatever the form.
fn check_room(out: &[u32]) -> Result<(), FormFault>
    ensures { MatchResult result (λ _. 256 ≤ length out.now) (λ e. (e ≡ ShortBuffer (length out.now)) × (length out.now < 256)) }
{
    if out.len() < 256 {
        return Err(FormFault::ShortBuffer(out.len()));
    }
    Ok(())
}

// Writes the common form of the left side and the formula to the front of the buffer and says how many cells that is, or that there is none.
pub fn common_form(
    left: &RuleSide,
    formula: &Formula,
    out: &mut [u32],
) -> Result<Option<usize>, FormFault>
    ensures { FormAnswer (row (row_words left.now)) (row (row_words formula.now)) out.old out.new result }
{
    check_room(out)?;
    let mut form = Form::new();
    if !form_of(left, formula, &mut form)? {
        return Ok(None);
    }
    let cells = form.cells.as_slice();
    out[..cells.len()].copy_from_slice(cells);
    Ok(Some(cells.len()))
}

// The same of rows as they come: the buffer is tested first, then the rows.
pub fn write_common_form(
    left: &[u32],
    formula: &[u32],
    out: &mut [u32],
) -> Result<Option<usize>, FormFault>
    ensures { RowsFormAnswer left.now formula.now out.old out.new result }
{
    check_room(out)?;
    let pair = check_pair(left, formula)?;
    common_form(&pair.left, &pair.formula, out)
}
