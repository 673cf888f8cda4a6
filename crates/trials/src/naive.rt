// The second matcher: it guesses what stands for each variable of the pattern, and then writes the pattern out to see.
// It shares no code with the library.
ghost use Rattle.std.specs.Prelude.{◌<◌, IfSome};

use crate::word::{VARIABLE, arity, substituted};
use std::alloc::{AllocError, Global};

// What stands in the target for a variable, with its position.
#[derive(Clone, Copy)]
pub struct Part<'a> {
    pub variable: u32,
    pub at: usize,
    pub cells: &'a [u32],
}

// Where the row that begins at `at` ends: it is a cell, and then as many rows as that asks for.
fn end_of(cells: &[u32], at: usize) -> Option<usize>
    ensures { IfSome result (λ end. at < end) }
{
    let cell = cells.get(at)?;
    let mut next = at + 1;
    for _ in 0..arity(*cell) {
        next = end_of(cells, next)?;
    }
    Some(next)
}

// The row that begins at `at`.
pub fn row_at(cells: &[u32], at: usize) -> Option<&[u32]> {
    cells.get(at..end_of(cells, at)?)
}

// The part for the variable.
pub fn part_for<'a>(parts: &[Part<'a>], variable: u32) -> Option<Part<'a>> {
    parts.iter().find(|part| part.variable == variable).copied()
}

// What stands in the target for each variable where the pattern has it first, as far as the target goes.
pub fn align<'a>(
    heap: Global,
    pattern: &[u32],
    target: &'a [u32],
) -> Result<Vec<Part<'a>>, AllocError> {
    let mut parts = Vec::new(heap);
    let mut at: usize = 0;
    for &cell in pattern {
        if cell < VARIABLE {
            at = at.saturating_add(1);
            continue;
        }
        let Some(cells) = row_at(target, at) else {
            break;
        };
        if part_for(parts.as_slice(), cell).is_none() {
            parts.push(Part {
                variable: cell,
                at,
                cells,
            })?;
        }
        at = at.saturating_add(cells.len());
    }
    Ok(parts)
}

// What stands for the variables of the pattern, if the pattern written out with it is the target.
pub fn matched<'a>(
    heap: Global,
    pattern: &[u32],
    target: &'a [u32],
) -> Result<Option<Vec<Part<'a>>>, AllocError> {
    let parts = align(heap, pattern, target)?;
    let written = substituted(heap, pattern, |cell| {
        part_for(parts.as_slice(), cell).map(|part| part.cells)
    })?;
    Ok((written.as_slice() == target).then_some(parts))
}

// Where the cell stands first.
fn first_place(cells: &[u32], cell: u32) -> Option<usize> {
    cells.iter().position(|other| *other == cell)
}

// Whether the rows are the same but for the names of their variables: a variable stands against one that has its first place.
pub fn same_shape(left: &[u32], right: &[u32]) -> bool {
    left.len() == right.len()
        && left.iter().zip(right).all(|(a, b)| {
            if *a < VARIABLE {
                a == b
            } else {
                *b >= VARIABLE && first_place(left, *a) == first_place(right, *b)
            }
        })
}
