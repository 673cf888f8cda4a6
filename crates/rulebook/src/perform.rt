// Making a call.
ghost use Rattle.std.specs.Prelude.{◌≡◌};
ghost use Rattle.cells.specs.Cells.{row};
ghost use Rattle.cells.specs.Records.{row_words};
ghost use Rattle.rulebook.specs.Answers.{FormulaAnswer, Holding, RelateAnswer, CommonAnswer, Answers};

use crate::answer::{Answer, FormulaSize, Held};
use crate::refused::Refused;
use cells::{Formula, Rule};
use matching::{CheckedPair, MatchFault, binding, check_pair, is_general, is_instance, is_variant};
use refusals::CellFault;
use script::{Call, Pair};
use unification::{FormFault, is_unifiable, write_common_form};

fn check_formula(cells: &[u32]) -> Result<FormulaSize, CellFault>
    ensures { FormulaAnswer cells.now result }
{
    let formula = Formula::new(cells)?;
    Ok(FormulaSize {
        cells: formula.cells().len(),
        variables: formula.variable_count(),
    })
}

// Which relations hold between checked rows.
fn held(pair: &CheckedPair) -> Held
    ensures { Holding (row (row_words pair.now.left)) (row (row_words pair.now.formula)) result }
{
    Held {
        general: is_general(&pair.left, &pair.formula),
        instance: is_instance(&pair.left, &pair.formula),
        variant: is_variant(&pair.left, &pair.formula),
        unifiable: is_unifiable(&pair.left, &pair.formula),
    }
}

fn relate(rows: &Pair) -> Result<Held, MatchFault>
    ensures { RelateAnswer rows.now result }
{
    let pair = check_pair(rows.left.as_slice(), rows.right.as_slice())?;
    Ok(held(&pair))
}

fn common<'a>(rows: &Pair, form: &'a mut [u32; 256]) -> Result<Option<&'a [u32]>, FormFault>
    ensures { CommonAnswer rows.now result }
{
    let length = write_common_form(rows.left.as_slice(), rows.right.as_slice(), form)?;
    Ok(length.map(|n| &form[..n]))
}

// What the call answers, or why it is refused. A common form stands in the buffer.
pub fn perform<'a>(call: &'a Call, form: &'a mut [u32; 256]) -> Result<Answer<'a>, Refused>
    ensures { Answers call.now result }
{
    Ok(match call {
        Call::CheckFormula(cells) => Answer::Formula(check_formula(cells.as_slice())?),
        Call::CheckRule(sides) => {
            Answer::Rule(Rule::new(sides.left.as_slice(), sides.right.as_slice())?)
        }
        Call::Relate(rows) => Answer::Related(relate(rows)?),
        Call::Bind(call) => {
            let rows = &call.rows;
            Answer::Part(binding(call.asked, rows.left.as_slice(), rows.right.as_slice())?)
        }
        Call::Common(rows) => Answer::Form(common(rows, form)?),
    })
}
