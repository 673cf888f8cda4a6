// Making pairs of rows.
ghost use Rattle.std.specs.Prelude.{◌<◌, ◌≤◌};

use crate::numbers::Numbers;
use crate::word::{ARGUMENT, VARIABLE, arity, renamed, substituted};
use cells::CellsText;
use std::alloc::{AllocError, Global};
use std::fmt;

// From how many sizes a row is chosen, and from how many what is put for a variable.
const ROW: u32 = 12;

const IMAGE: u32 = 4;

// How many variables a random row can have.
const VARIABLES: u32 = 3;

// A left side and a formula.
#[derive(Drop)]
pub struct Pair {
    pub left: Vec<u32>,
    pub formula: Vec<u32>,
}

impl Pair {
    pub fn sides(&self) -> (&[u32], &[u32]) {
        (self.left.as_slice(), self.formula.as_slice())
    }
}

impl fmt::Display for Pair {
    fn fmt<W: fmt::Write>(&self, f: &mut fmt::Formatter<W>) -> fmt::Result {
        let (left, formula) = self.sides();
        write!(f, " {} | {}", CellsText(left), CellsText(formula))
    }
}

// A cell with that many arguments. One with none is a variable or a constant.
fn random_cell(numbers: &mut Numbers, arity: u32) -> u32
    requires { arity ≤ 3 }
{
    if arity > 0 {
        return arity * ARGUMENT;
    }
    let n = numbers.below(5);
    if n < VARIABLES { VARIABLE + n } else { n }
}

// A whole row with room for so many arguments in all.
fn random_row(heap: Global, mut room: u32, numbers: &mut Numbers) -> Result<Vec<u32>, AllocError>
    requires { room < 256 }
{
    let mut row = Vec::new(heap);
    // how many rows are still to come
    let mut need: u32 = 1;
    while need > 0 {
        // 0 half as often as each of 1, 2 and 3
        let arity = numbers.below(7).div_ceil(2).min(room);
        row.push(random_cell(numbers, arity))?;
        room -= arity;
        need = need - 1 + arity;
    }
    Ok(row)
}

// A row that is no bare variable: a symbol with one argument goes before that.
fn random_side(heap: Global, numbers: &mut Numbers) -> Result<Vec<u32>, AllocError> {
    let mut row = random_row(heap, 2 + numbers.below(ROW), numbers)?;
    if row.first().is_some_and(|first| *first >= VARIABLE) {
        row.insert(0, ARGUMENT)?;
    }
    Ok(row)
}

// An instance of the row.
fn random_instance(
    heap: Global,
    row: &[u32],
    numbers: &mut Numbers,
) -> Result<Vec<u32>, AllocError> {
    let mut images = Vec::new(heap);
    for _ in 0..VARIABLES {
        images.push(random_row(heap, numbers.below(IMAGE), numbers)?)?;
    }
    let images = images.as_slice();
    substituted(heap, row, move |cell| {
        let variable = cell.checked_sub(VARIABLE)?;
        Some(images.get(variable as usize)?.as_slice())
    })
}

// The row with its variables renamed one to one, among four.
fn random_variant(
    heap: Global,
    row: &[u32],
    numbers: &mut Numbers,
) -> Result<Vec<u32>, AllocError> {
    let shift = numbers.below(4);
    renamed(heap, row, |cell| VARIABLE + cell.wrapping_add(shift) % 4)
}

// The row with variables, alone or under a symbol with one argument, in place of most of its constants and variables. It stays no bare variable.
// Two such rows of one row often have a common form, or fail the occurs test alone.
fn random_overlap(
    heap: Global,
    row: &[u32],
    numbers: &mut Numbers,
) -> Result<Vec<u32>, AllocError> {
    let mut cells = Vec::new(heap);
    for (i, &cell) in row.iter().enumerate() {
        let kind = numbers.below(4);
        let variable = VARIABLE + numbers.below(VARIABLES);
        if i == 0 || arity(cell) > 0 || kind == 0 {
            cells.push(cell)?;
        } else if kind == 1 {
            cells.extend_from_slice(&[ARGUMENT, variable])?;
        } else {
            cells.push(variable)?;
        }
    }
    Ok(cells)
}

// Puts another cell for a constant or a variable, now and then.
fn spoil(row: &mut Vec<u32>, numbers: &mut Numbers) {
    let at = numbers.below(2 * ROW) as usize;
    let other = random_cell(numbers, 0);
    if let Some(cell) = row.get_mut(at)
        && arity(*cell) == 0
    {
        *cell = other;
    }
}

// A pair by chance, or one made so that a relation holds. The formula of either may then be spoiled.
pub fn random_pair(heap: Global, numbers: &mut Numbers) -> Result<Pair, AllocError> {
    let side = random_side(heap, numbers)?;
    let (left, mut formula) = match numbers.below(4) {
        0 => (side, random_row(heap, numbers.below(ROW), numbers)?),
        1 => {
            let instance = random_instance(heap, side.as_slice(), numbers)?;
            (side, instance)
        }
        2 => (random_instance(heap, side.as_slice(), numbers)?, side),
        _ => {
            let variant = random_variant(heap, side.as_slice(), numbers)?;
            (side, variant)
        }
    };
    spoil(&mut formula, numbers);
    Ok(Pair { left, formula })
}

// Two rows that often overlap. The formula may then be spoiled.
pub fn overlapping_pair(heap: Global, numbers: &mut Numbers) -> Result<Pair, AllocError> {
    let side = random_side(heap, numbers)?;
    let left = random_overlap(heap, side.as_slice(), numbers)?;
    let mut formula = random_overlap(heap, side.as_slice(), numbers)?;
    spoil(&mut formula, numbers);
    Ok(Pair { left, formula })
}
