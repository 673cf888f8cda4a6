// Matching: the relations of a left side to a formula.
#![tactic(auto)]

mod deciding;
mod fault;
mod finding;
pub mod inner;
mod matcher;
mod pair;
mod relation;
mod theorems;

pub use deciding::{is_general, is_instance, is_variant};
pub use fault::MatchFault;
pub use finding::{Asked, Found, binding};
pub use pair::{CheckedPair, check_pair};
pub use relation::{Relation, UnknownRelation};
pub use theorems::relation_laws;
