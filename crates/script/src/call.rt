// The calls that a script can make.
use matching::Asked;

// Two rows, as they are typed: the sides of a rule, or a left side and a formula.
#[derive(Drop)]
pub struct Pair {
    pub left: Vec<u32>,
    pub right: Vec<u32>,
}

// What a binding is asked for, and the rows.
#[derive(Drop)]
pub struct BindCall {
    pub asked: Asked,
    pub rows: Pair,
}

#[derive(Drop)]
pub enum Call {
    CheckFormula(Vec<u32>),
    CheckRule(Pair),
    Relate(Pair),
    Bind(BindCall),
    Common(Pair),
}
