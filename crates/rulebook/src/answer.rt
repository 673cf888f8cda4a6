// What a call answers, and the line that is printed for it.
ghost use Rattle.std.specs.Prelude.{Some};
ghost use Rattle.rulebook.specs.Texts.{held_text, answer_text};

use crate::printing::Names;
use cells::{CellsText, Rule};
use matching::{Found, Relation};
use std::fmt;

// What is told of a formula that passes.
#[derive(Clone, Copy)]
pub struct FormulaSize {
    pub cells: usize,
    pub variables: usize,
}

// Which relations of a left side to a formula hold.
#[derive(Clone, Copy)]
pub struct Held {
    pub general: bool,
    pub instance: bool,
    pub variant: bool,
    pub unifiable: bool,
}

// What a call answers. A part and a common form may be lacking.
#[derive(Drop)]
pub enum Answer<'a> {
    Formula(FormulaSize),
    Rule(Rule),
    Related(Held),
    Part(Option<Found<'a>>),
    Form(Option<&'a [u32]>),
}

impl fmt::Display for Held {
    ghost output = { λ x. Some (held_text x) };

    fn fmt<W: fmt::Write>(&self, f: &mut fmt::Formatter<W>) -> fmt::Result {
        let relations = [
            (self.general, Relation::General),
            (self.instance, Relation::Instance),
            (self.variant, Relation::Variant),
            (self.unifiable, Relation::Unifiable),
        ];
        write!(f, "{}", Names(&relations))
    }
}

impl fmt::Display for Answer<'_> {
    ghost output = { λ a. Some (answer_text a) };

    fn fmt<W: fmt::Write>(&self, f: &mut fmt::Formatter<W>) -> fmt::Result {
        match self {
            Answer::Formula(FormulaSize { cells, variables }) => write!(
                f,
                "ok {cells} cells, {variables} variables"
            ),
            Answer::Rule(rule) => write!(
                f,
                "ok {} -> {}",
                CellsText(rule.left()),
                CellsText(rule.right())
            ),
            Answer::Related(held) => write!(f, "{held}"),
            Answer::Part(Some(Found { at, cells })) => write!(
                f,
                "part {at} {}: {}",
                cells.len(),
                CellsText(cells)
            ),
            Answer::Form(Some(cells)) => write!(f, "{} cells: {}", cells.len(), CellsText(cells)),
            Answer::Part(None) | Answer::Form(None) => write!(f, "none"),
        }
    }
}
