// Unification: whether a left side and a formula have a common form, and which.
#![tactic(auto)]

mod deciding;
mod fault;
mod form;
mod forming;
mod kinds;
mod memory;
mod theorems;
mod unifier;

pub use deciding::is_unifiable;
pub use fault::FormFault;
pub use forming::{common_form, write_common_form};
pub use theorems::unification_laws;
