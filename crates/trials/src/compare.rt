// Comparing what the library and the naive code answer on a pair.
use crate::naive::{Part, align, matched, part_for, same_shape};
use crate::rows::Pair;
use crate::unify::unify;
use crate::word::VARIABLE;
use matching::{Asked, Found, Relation, binding, check_pair, is_general, is_instance, is_variant};
use std::alloc::{AllocError, Global};
use unification::is_unifiable;

// Bindings are asked for of the variables below this: of the four that rows can have, and of one that none has.
const ASKED: u32 = 5;

// What comes of a pair: how many variables are bound, if the relation holds, and whether the library agrees.
#[derive(Clone, Copy)]
pub struct Finding {
    pub bound: Option<usize>,
    pub agree: bool,
}

// What the naive code puts for the variables, if the relation holds. Unifiable binds none; it is compared with the forms.
fn solve<'a>(
    heap: Global,
    relation: Relation,
    left: &'a [u32],
    formula: &'a [u32],
) -> Result<Option<Vec<Part<'a>>>, AllocError> {
    match relation {
        Relation::General => matched(heap, left, formula),
        Relation::Instance => matched(heap, formula, left),
        Relation::Variant if same_shape(left, formula) => Ok(Some(align(heap, left, formula)?)),
        Relation::Variant => Ok(None),
        Relation::Unifiable => Ok(unify(heap, left, formula)?.map(|_| Vec::new(heap))),
    }
}

// Whether the library says that the relation holds; none if it refuses a row.
pub fn decide(relation: Relation, left: &[u32], formula: &[u32]) -> Option<bool> {
    let pair = check_pair(left, formula).ok()?;
    Some(match relation {
        Relation::General => is_general(&pair.left, &pair.formula),
        Relation::Instance => is_instance(&pair.left, &pair.formula),
        Relation::Variant => is_variant(&pair.left, &pair.formula),
        Relation::Unifiable => is_unifiable(&pair.left, &pair.formula),
    })
}

// Whether the library found the part.
fn same_part(found: Option<Found<'_>>, part: Option<Part<'_>>) -> bool {
    found.map(|found| (found.at, found.cells)) == part.map(|part| (part.at, part.cells))
}

// Asks the naive code and the library.
pub fn compare(heap: Global, relation: Relation, pair: &Pair) -> Result<Finding, AllocError> {
    let (left, formula) = pair.sides();
    let solved = solve(heap, relation, left, formula)?;
    let parts = solved.as_deref().unwrap_or(&[]);
    let agree = decide(relation, left, formula) == Some(solved.is_some())
        && (0..ASKED).all(|v| {
            let part = part_for(parts, VARIABLE + v);
            let found = binding(Asked::new(relation, v), left, formula);
            found.is_ok_and(|found| same_part(found, part))
        });
    Ok(Finding {
        bound: solved.map(|parts| parts.len()),
        agree,
    })
}
