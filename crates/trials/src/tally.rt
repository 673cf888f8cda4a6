// Counting what comes of the pairs.
use crate::compare::Finding;
use std::fmt;

#[derive(Clone, Copy, Default)]
pub struct Tally {
    pairs: usize,
    hold: usize,
    bound: usize,
    pub differences: usize,
}

impl Tally {
    // Counts a pair. A full count stays.
    pub fn count(&mut self, finding: Finding) {
        self.pairs = self.pairs.saturating_add(1);
        if let Some(bound) = finding.bound {
            self.hold = self.hold.saturating_add(1);
            self.bound = self.bound.saturating_add(bound);
        }
        if !finding.agree {
            self.differences = self.differences.saturating_add(1);
        }
    }
}

impl fmt::Display for Tally {
    fn fmt<W: fmt::Write>(&self, f: &mut fmt::Formatter<W>) -> fmt::Result {
        let Tally {
            pairs,
            hold,
            bound,
            differences,
        } = *self;
        write!(
            f,
            "{pairs} pairs, {hold} hold, {bound} variables bound, {differences} differences"
        )
    }
}
