// Substitutions given by parts of a row, and writing a row under one.
#![tactic(auto)]

mod bindings;
mod trial;
mod writing;

pub use bindings::{Binding, Bindings, Full, Part};
pub use trial::Trial;
pub use writing::{clipped, length_under, substitute_into};
