// Why a call is refused, and the line that is printed for it.
ghost use Rattle.std.specs.Prelude.{◌≡◌, Some};
ghost use Rattle.rulebook.specs.Texts.{row_name, refused_text};
ghost use Rattle.rulebook.specs.declared.refused.Refused.TheVariants.{Formula, Rule, Pair, Common};

use matching::MatchFault;
use refusals::{CellFault, Refusal, RuleFault};
use std::fmt;
use unification::FormFault;

// The fault of what was asked for: a formula, a rule, a pair of rows, or their common form.
#[derive(Clone, Copy)]
pub enum Refused {
    Formula(CellFault),
    Rule(RuleFault),
    Pair(MatchFault),
    Common(FormFault),
}

impl From<CellFault> for Refused {
    ghost from_gives = { λ f r. r ≡ Formula f };

    fn from(f: CellFault) -> Refused {
        Refused::Formula(f)
    }
}

impl From<RuleFault> for Refused {
    ghost from_gives = { λ f r. r ≡ Rule f };

    fn from(f: RuleFault) -> Refused {
        Refused::Rule(f)
    }
}

impl From<MatchFault> for Refused {
    ghost from_gives = { λ f r. r ≡ Pair f };

    fn from(f: MatchFault) -> Refused {
        Refused::Pair(f)
    }
}

impl From<FormFault> for Refused {
    ghost from_gives = { λ f r. r ≡ Common f };

    fn from(f: FormFault) -> Refused {
        Refused::Common(f)
    }
}

// The row of a pair that is refused.
fn row_name(fault: MatchFault) -> &'static str
    ensures { result.now ≡ row_name fault }
{
    match fault {
        MatchFault::Left(_) => "left",
        MatchFault::Formula(_) => "formula",
    }
}

impl fmt::Display for Refused {
    ghost output = { λ r. Some (refused_text r) };

    fn fmt<W: fmt::Write>(&self, f: &mut fmt::Formatter<W>) -> fmt::Result {
        match self {
            Refused::Formula(fault) => write!(f, "{}", Refusal::from(*fault)),
            Refused::Rule(fault) => write!(f, "{} {}", fault.side(), Refusal::from(*fault)),
            Refused::Pair(fault) | Refused::Common(FormFault::Rows(fault)) => write!(
                f,
                "{} {}",
                row_name(*fault),
                Refusal::from(*fault)
            ),
            Refused::Common(fault) => write!(f, "{}", Refusal::from(*fault)),
        }
    }
}
