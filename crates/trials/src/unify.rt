// The second unifier: where the rows differ first, it puts what stands in one for the variable in the other, in both rows written out, until they are the same.
// It shares no code with the library.
use crate::naive::row_at;
use crate::rows::Pair;
use crate::word::{VARIABLE, renamed, substituted};
use std::alloc::{AllocError, Global};

// What is added to the left side's variables, so that they are none of the formula's.
const APART: u32 = 0x100;

// Each round takes a variable away, and two rows have eight at most.
const ROUNDS: u32 = 9;

// Where the rows differ first.
fn first_difference(one: &[u32], other: &[u32]) -> Option<usize> {
    one.iter().zip(other).position(|(a, b)| a != b)
}

// The variable that the row has there, and what the other row has in its place; none if it is no variable, or stands inside that.
fn step_from<'a>(row: &[u32], other: &'a [u32], at: usize) -> Option<(u32, &'a [u32])> {
    let variable = *row.get(at)?;
    let image = row_at(other, at)?;
    (variable >= VARIABLE && !image.contains(&variable)).then_some((variable, image))
}

// The row with its variables numbered by first occurrence.
fn numbered(heap: Global, row: &[u32]) -> Result<Vec<u32>, AllocError> {
    let mut names = Vec::new(heap);
    for cell in row {
        if *cell >= VARIABLE && !names.contains(cell) {
            names.push(*cell)?;
        }
    }
    renamed(heap, row, |variable| {
        (VARIABLE..)
            .zip(names.iter())
            .find(|(_, name)| **name == variable)
            .map_or(variable, |(number, _)| number)
    })
}

// The common form of the rows, of whatever size, if there is one.
pub fn unify(heap: Global, left: &[u32], formula: &[u32]) -> Result<Option<Vec<u32>>, AllocError> {
    let mut pair = Pair {
        left: renamed(heap, left, |variable| variable.saturating_add(APART))?,
        formula: Vec::from_slice(heap, formula)?,
    };
    for _ in 0..ROUNDS {
        let (one, other) = pair.sides();
        let Some(at) = first_difference(one, other) else {
            return Ok(Some(numbered(heap, one)?));
        };
        let step = step_from(one, other, at).or_else(|| step_from(other, one, at));
        let Some((variable, image)) = step else {
            return Ok(None);
        };
        let put = |cell: u32| (cell == variable).then_some(image);
        pair = Pair {
            left: substituted(heap, one, put)?,
            formula: substituted(heap, other, put)?,
        };
    }
    Ok(None)
}
