// A common form as it is written.
ghost use Rattle.std.specs.Prelude.{◌≡◌, ◌<◌, ◌≤◌, [], ◌∷◌, ◌++◌, length, MatchResult, IfOk};

use arrayvec::ArrayVec;
use cells::place_of;

// The form has more than 256 cells or 64 variables.
#[derive(Clone, Copy, PartialEq, Eq)]
pub struct TooLarge;

// The cells so far, and the variables met, in order: a variable's number is its place among these.
#[derive(Drop)]
pub struct Form {
    pub cells: ArrayVec<u32, 256>,
    names: ArrayVec<u32, 64>,
    pub ghost within: { length cells.items ≤ 256 },
    pub ghost few: { length names.items ≤ 64 },
}

impl Form {
    ghost use Rattle.cells.specs.Variables.{index, include};

    pub fn new() -> Form
        ensures cells { result.cells.items ≡ [] }
        ensures names { result.names.items ≡ [] }
    {
        Form {
            cells: ArrayVec::new(),
            names: ArrayVec::new(),
        }
    }

    // Adds a cell, if there is room.
    pub fn push(&mut self, word: u32) -> Result<(), TooLarge>
        ensures cells { MatchResult result (λ _. self.new.cells.items ≡ self.old.cells.items ++ word ∷ [])
            (λ _. 256 ≤ length self.old.cells.items) }
        ensures names { self.new.names ≡ self.old.names }
    {
        self.cells.try_push(word).map_err(|_| TooLarge)
    }

    // The number of a variable. One that was not met yet takes the next, if there is one.
    pub fn number_of(&mut self, variable: u32) -> Result<u32, TooLarge>
        ensures number { MatchResult result
            (λ n. (n ≡ index self.old.names.items variable) × (self.new.names.items ≡ include self.old.names.items variable))
            (λ _. 64 < length (include self.old.names.items variable)) }
        ensures below { IfOk result (λ n. n < 64) }
        ensures cells { self.new.cells ≡ self.old.cells }
    {
        let next = self.names.len() as u32;
        if let Some(i) = place_of(self.names.as_slice(), variable) {
            return Ok(i as u32);
        }
        self.names.try_push(variable).map_err(|_| TooLarge)?;
        Ok(next)
    }
}
