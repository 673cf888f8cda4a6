// Counting calls.
ghost use Rattle.std.specs.Prelude.{◌≡◌, ◌+◌, ◌-◌, ◌^◌, ◌≤◌, Some, min, is_ok, if◌then◌else◌};
ghost use Rattle.rulebook.specs.Printing.{tally_text};

use crate::answer::Answer;
use crate::refused::Refused;
use std::fmt;

// How many calls were made, and how many of them were refused.
#[derive(Clone, Copy)]
pub struct Tally {
    calls: u64,
    refused: u64,
    ghost some: { refused ≤ calls },
}

impl Tally {
    pub fn new() -> Tally
        ensures calls { result.calls ≡ 0 }
        ensures refused { result.refused ≡ 0 }
    {
        Tally {
            calls: 0,
            refused: 0,
        }
    }

    // Counts a call that was answered so. A full count stays.
    pub fn count(&mut self, answer: &Result<Answer, Refused>)
        ensures calls { self.new.calls ≡ min (self.old.calls + 1) (2 ^ 64 - 1) }
        ensures refused { self.new.refused ≡ min (self.old.refused + (if is_ok answer.now then 0 else 1)) (2 ^ 64 - 1) }
    {
        self.calls = self.calls.saturating_add(1);
        if answer.is_err() {
            self.refused = self.refused.saturating_add(1);
        }
    }
}

impl fmt::Display for Tally {
    ghost output = { λ t. Some (tally_text t.calls t.refused) };

    fn fmt<W: fmt::Write>(&self, f: &mut fmt::Formatter<W>) -> fmt::Result {
        write!(f, "{} calls, {} refused", self.calls, self.refused)
    }
}
