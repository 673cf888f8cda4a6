// Why a row, a rule or a number is refused, and what is told of it.
#![tactic(auto)]

ghost use Rattle.std.specs.Prelude.{◌≡◌, Some};
ghost use Rattle.std.specs.Fmt.{padded};
ghost use Rattle.refusals.specs.Refusals.{refusal, cell_refusal, rule_refusal, number_refusal, side_of, layer_name, side_name, refusal_text};
ghost use Rattle.refusals.specs.declared.RuleFault.TheVariants.{Cells};

use std::fmt;

// The layer at which a call is refused.
#[derive(Clone, Copy, PartialEq, Eq)]
pub enum Layer {
    Buffers,
    File,
    Cells,
    Rule,
    Book,
    CommonForm,
}

// What a refused call answers.
#[derive(Clone, Copy, PartialEq, Eq)]
pub struct Refusal {
    pub number: u32,
    pub layer: Layer,
    pub place: usize,
}

// Why a row is refused, each with the place that is told.
#[derive(Clone, Copy)]
pub enum CellFault {
    Length(usize),
    NoCell(usize),
    EndsEarly(usize),
    LeftOver(usize),
}

#[derive(Clone, Copy)]
pub enum Side {
    Left,
    Right,
}

// Why a rule is refused: a side's row, or how the sides go together.
#[derive(Clone, Copy)]
pub enum RuleFault {
    Cells(Side, CellFault),
    BareVariable,
    NewVariable(usize),
}

// A rule's number that is 0 or above the top. The rule file and the book both tell it.
#[derive(Clone, Copy)]
pub enum NumberFault {
    OutOfRange(u32),
}

// A row's fault with the side that the row is.
#[derive(Clone, Copy)]
pub struct SideFault {
    pub side: Side,
    pub fault: CellFault,
}

impl From<SideFault> for RuleFault {
    ghost from_gives = { λ f r. r ≡ Cells f.side f.fault };

    fn from(f: SideFault) -> RuleFault {
        RuleFault::Cells(f.side, f.fault)
    }
}

impl Refusal {
    pub fn new(number: u32, layer: Layer, place: usize) -> Refusal
        ensures { result ≡ refusal number layer place }
    {
        Refusal {
            number,
            layer,
            place,
        }
    }
}

impl From<CellFault> for Refusal {
    ghost from_gives = { λ f r. r ≡ cell_refusal f };

    fn from(fault: CellFault) -> Refusal {
        match fault {
            CellFault::Length(place) => Refusal::new(1, Layer::Cells, place),
            CellFault::NoCell(place) => Refusal::new(2, Layer::Cells, place),
            CellFault::EndsEarly(place) => Refusal::new(3, Layer::Cells, place),
            CellFault::LeftOver(place) => Refusal::new(3, Layer::Cells, place),
        }
    }
}

impl From<RuleFault> for Refusal {
    ghost from_gives = { λ f r. r ≡ rule_refusal f };

    fn from(fault: RuleFault) -> Refusal {
        match fault {
            RuleFault::Cells(_, fault) => fault.into(),
            RuleFault::BareVariable => Refusal::new(4, Layer::Rule, 0),
            RuleFault::NewVariable(place) => Refusal::new(5, Layer::Rule, place),
        }
    }
}

impl From<NumberFault> for Refusal {
    ghost from_gives = { λ f r. r ≡ number_refusal f };

    fn from(fault: NumberFault) -> Refusal {
        match fault {
            NumberFault::OutOfRange(n) => Refusal::new(6, Layer::Book, n as usize),
        }
    }
}

impl RuleFault {
    // The side that the fault speaks of.
    pub fn side(self) -> Side
        ensures { result ≡ side_of self }
    {
        match self {
            RuleFault::Cells(side, _) => side,
            RuleFault::BareVariable => Side::Left,
            RuleFault::NewVariable(_) => Side::Right,
        }
    }
}

impl Layer {
    pub fn name(self) -> &'static str
        ensures { result.now ≡ layer_name self }
    {
        match self {
            Layer::Buffers => "buffers",
            Layer::File => "file",
            Layer::Cells => "cells",
            Layer::Rule => "rule",
            Layer::Book => "book",
            Layer::CommonForm => "common form",
        }
    }
}

impl fmt::Display for Layer {
    ghost output = { λ l. Some (layer_name l) };

    ghost styled_output = { λ l spec. Some (padded spec (layer_name l)) };

    fn fmt<W: fmt::Write>(&self, f: &mut fmt::Formatter<W>) -> fmt::Result {
        f.pad(self.name())
    }
}

impl fmt::Display for Side {
    ghost output = { λ s. Some (side_name s) };

    ghost styled_output = { λ s spec. Some (padded spec (side_name s)) };

    fn fmt<W: fmt::Write>(&self, f: &mut fmt::Formatter<W>) -> fmt::Result {
        f.pad(match self {
            Side::Left => "left",
            Side::Right => "right",
        })
    }
}

impl fmt::Display for Refusal {
    ghost output = { λ r. Some (refusal_text r) };

    fn fmt<W: fmt::Write>(&self, f: &mut fmt::Formatter<W>) -> fmt::Result {
        write!(f, "refused {} {} {}", self.number, self.layer, self.place)
    }
}
