// Why no common form is written, though it was asked for.
ghost use Rattle.std.specs.Prelude.{◌≡◌};
ghost use Rattle.unification.specs.Refusals.{form_refusal};
ghost use Rattle.unification.specs.declared.fault.FormFault.TheVariants.{Rows, TooLarge};

use crate::form;
use matching::MatchFault;
use refusals::{Layer, Refusal};

// The buffer, of this length, is short; a row is refused; or the form has more than 256 cells or 64 variables.
#[derive(Clone, Copy)]
pub enum FormFault {
    ShortBuffer(usize),
    Rows(MatchFault),
    TooLarge,
}

impl From<MatchFault> for FormFault {
    ghost from_gives = { λ f r. r ≡ Rows f };

    fn from(f: MatchFault) -> FormFault {
        FormFault::Rows(f)
    }
}

impl From<form::TooLarge> for FormFault {
    ghost from_gives = { λ _ f. f ≡ TooLarge };

    fn from(_e: form::TooLarge) -> FormFault {
        FormFault::TooLarge
    }
}

impl From<FormFault> for Refusal {
    ghost from_gives = { λ f r. r ≡ form_refusal f };

    fn from(fault: FormFault) -> Refusal {
        match fault {
            FormFault::ShortBuffer(length) => Refusal::new(10, Layer::Buffers, length),
            FormFault::Rows(fault) => fault.into(),
            FormFault::TooLarge => Refusal::new(11, Layer::CommonForm, 0),
        }
    }
}
