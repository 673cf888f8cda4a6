// Cells, rows of cells, rules, and what is checked of them. The lowest layer: everything above stands on these definitions.
#![tactic(auto)]

mod check;
mod names;
mod row;
mod rule;
mod side;
mod text;
mod theorems;
mod word;

pub use check::{check_row, term_end};
pub use names::place_of;
pub use row::{Formula, Row, RuleSide};
pub use rule::Rule;
pub use side::check_left;
pub use text::CellsText;
pub use theorems::laws;
pub use word::{FormulaVar, RuleVar, TreeVar, VARIABLE, arity_of, is_cell};
