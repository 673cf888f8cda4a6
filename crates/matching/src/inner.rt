// For sister crates: what asks something of its caller.
pub use crate::matcher::{fits_at, match_front};
