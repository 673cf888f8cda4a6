// Why a pair of a left side and a formula is refused.
ghost use Rattle.std.specs.Prelude.{◌≡◌};
ghost use Rattle.matching.specs.Refusals.{match_refusal};
ghost use Rattle.matching.specs.declared.fault.MatchFault.TheVariants.{Left, Formula};

use refusals::{CellFault, Refusal, RuleFault};

#[derive(Clone, Copy)]
pub enum MatchFault {
    Left(RuleFault),
    Formula(CellFault),
}

impl From<RuleFault> for MatchFault {
    ghost from_gives = { λ f r. r ≡ Left f };

    fn from(f: RuleFault) -> MatchFault {
        MatchFault::Left(f)
    }
}

impl From<CellFault> for MatchFault {
    ghost from_gives = { λ f r. r ≡ Formula f };

    fn from(f: CellFault) -> MatchFault {
        MatchFault::Formula(f)
    }
}

impl From<MatchFault> for Refusal {
    ghost from_gives = { λ f r. r ≡ match_refusal f };

    fn from(fault: MatchFault) -> Refusal {
        match fault {
            MatchFault::Left(f) => f.into(),
            MatchFault::Formula(f) => f.into(),
        }
    }
}
