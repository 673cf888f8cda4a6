// The script language: from a line to the call that it makes.
#![tactic(auto)]

mod call;
mod parse;
mod trouble;

pub use call::{BindCall, Call, Pair};
pub use parse::parse_line;
pub use trouble::{LineFault, Trouble};
