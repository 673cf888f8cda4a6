// Comparing the library with the naive unifier on a pair.
use crate::compare::{Finding, decide};
use crate::rows::Pair;
use crate::unify::unify;
use matching::{Asked, Relation, binding};
use std::alloc::{AllocError, Global};
use unification::{FormFault, write_common_form};

// The buffer has more room than a form can take, and this word in every cell.
const ROOM: usize = 260;

const KEPT: u32 = 0xABCD_EF01;

const LONGEST: usize = 256;

// Whether the cells are as they were.
fn is_kept(out: &[u32]) -> bool {
    out.iter().all(|cell| *cell == KEPT)
}

// Whether the library answers the form, and has written it and nothing else.
fn same_form(answer: Result<Option<usize>, FormFault>, form: Option<&[u32]>, out: &[u32]) -> bool {
    match (answer, form) {
        (Ok(None), None) => is_kept(out),
        (Ok(Some(n)), Some(form)) => out
            .split_at_checked(n)
            .is_some_and(|(front, rest)| front == form && is_kept(rest)),
        (Err(FormFault::TooLarge), Some(form)) => form.len() > LONGEST && is_kept(out),
        _ => false,
    }
}

// Compares unifiable as a relation, which binds no variable, and the common form. The naive unifier is asked once for both.
pub fn compare_forms(heap: Global, pair: &Pair) -> Result<Finding, AllocError> {
    let (left, formula) = pair.sides();
    let form = unify(heap, left, formula)?;
    let mut out = [KEPT; ROOM];
    let answer = write_common_form(left, formula, &mut out);
    let agree = decide(Relation::Unifiable, left, formula) == Some(form.is_some())
        && binding(Asked::Unifiable, left, formula).is_ok_and(|found| found.is_none())
        && same_form(answer, form.as_deref(), &out);
    Ok(Finding {
        bound: form.map(|_| 0),
        agree,
    })
}
