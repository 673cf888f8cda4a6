// The binding of a variable.
ghost use Rattle.std.specs.Prelude.{◌≡◌, ◌<◌, length, MatchOption};
ghost use Rattle.cells.specs.Cells.{cell, row};
ghost use Rattle.cells.specs.Rows.{Occurs};
ghost use Rattle.matching.specs.Relations.{General};
ghost use Rattle.matching.specs.Named.{asked_for};
ghost use Rattle.matching.specs.Pairs.{PairHeld};
ghost use Rattle.matching.specs.Walking.{Passed, Reached};
ghost use Rattle.matching.specs.Bound.{First, Binds, AskedBinding, BindingAnswer};

use crate::deciding::{is_general, is_instance, is_variant};
use crate::fault::MatchFault;
use crate::pair::{CheckedPair, check_pair};
use crate::relation::Relation;
use cells::{FormulaVar, RuleVar, VARIABLE, term_end};

// The relation and the variable that a binding is asked for. The kind of the variable follows the relation.
#[derive(Clone, Copy)]
pub enum Asked {
    General(RuleVar),
    Instance(FormulaVar),
    Variant(RuleVar),
    Unifiable,
}

impl Asked {
    // The variable of this number, of the kind that the relation asks for.
    pub fn new(relation: Relation, v: u32) -> Asked
        ensures { result ≡ asked_for relation v }
    {
        match relation {
            Relation::General => Asked::General(RuleVar(v)),
            Relation::Instance => Asked::Instance(FormulaVar(v)),
            Relation::Variant => Asked::Variant(RuleVar(v)),
            Relation::Unifiable => Asked::Unifiable,
        }
    }
}

// A part of one of the caller's rows, with its position.
#[derive(Clone, Copy)]
pub struct Found<'a> {
    pub at: usize,
    pub cells: &'a [u32],
}

// Where the variable stands first.
fn first_place(pattern: &[u32], v: u32) -> Option<usize>
    ensures { MatchOption result (Occurs (row pattern.now) v → ⊥) (λ k. First (row pattern.now) v k) }
{
    pattern
        .iter()
        .position(|w| w.checked_sub(VARIABLE) == Some(v))
}

// Where the part ends that a cell of a pattern becomes at a position, with no bindings at hand.
#[tactic(auto, using(crate::proofs::Walking::passing))]
fn pass(w: u32, target: &[u32], at: usize) -> Option<usize>
    ensures { Passed target.now (cell w) at result }
{
    if w < VARIABLE {
        return (*target.get(at)? == w).then_some(at + 1);
    }
    term_end(target, at)
}

// Where what is put for the pattern's cell at `k` begins, if the pattern is general for the target.
#[tactic(auto, using(crate::proofs::Walking::places))]
fn place(pattern: &[u32], k: usize, target: &[u32]) -> usize
    requires inside { k < length pattern.now }
    requires holds { General (row pattern.now) (row target.now) }
    ensures { Reached (row pattern.now) target.now k result }
{
    let mut at = 0;
    for w in &pattern[..k] {
        at = pass(*w, target, at).unwrap();
    }
    at
}

// The part of the target that the variable is bound to.
#[tactic(auto, using(crate::proofs::Walking::places))]
fn bound<'a>(pattern: &[u32], v: u32, target: &'a [u32]) -> Option<Found<'a>>
    requires { General (row pattern.now) (row target.now) }
    ensures { Binds (row pattern.now) target.now v result }
{
    let k = first_place(pattern, v)?;
    let at = place(pattern, k, target);
    let end = term_end(target, at).unwrap();
    Some(Found {
        at,
        cells: &target[at..end],
    })
}

// The binding of the asked variable in checked rows, if the asked relation holds: a part of the rows as they came.
#[tactic(auto, using(crate::proofs::Relating::variant_general))]
fn find<'a>(
    asked: Asked,
    pair: &CheckedPair,
    left: &'a [u32],
    formula: &'a [u32],
) -> Option<Found<'a>>
    requires { PairHeld left.now formula.now pair.now }
    ensures { AskedBinding asked left.now formula.now result }
{
    match asked {
        Asked::General(v) if is_general(&pair.left, &pair.formula) => bound(left, v.0, formula),
        Asked::Variant(v) if is_variant(&pair.left, &pair.formula) => bound(left, v.0, formula),
        Asked::Instance(v) if is_instance(&pair.left, &pair.formula) => bound(formula, v.0, left),
        _ => None,
    }
}

// The binding of the asked variable under the asked relation, or why the rows are refused.
pub fn binding<'a>(
    asked: Asked,
    left: &'a [u32],
    formula: &'a [u32],
) -> Result<Option<Found<'a>>, MatchFault>
    ensures { BindingAnswer asked left.now formula.now result }
{
    let pair = check_pair(left, formula)?;
    Ok(find(asked, &pair, left, formula))
}
