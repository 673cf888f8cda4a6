// One-sided matching: what has to be put for the variables of a pattern so that it becomes a given row.
ghost use Rattle.std.specs.Prelude.{◌≡◌, ◌+◌, ◌<◌, ◌≤◌, [], ◌∷◌, length, IfSome};
ghost use Rattle.cells.specs.Cells.{cell, row};
ghost use Rattle.substitution.specs.Bindings.{bindings_list};
ghost use Rattle.matching.specs.Fronts.{FrontMatched, Fits};

use cells::{VARIABLE, term_end};
use substitution::{Bindings, Part, Trial, clipped};

// Extends the bindings by one cell of a pattern, at a position of the target, and says where the next one stands.
#[tactic(auto, using(crate::proofs::Stepping::steps))]
fn extend_by(w: u32, target: &[u32], at: usize, list: &mut Bindings) -> Option<usize>
    requires room { length (bindings_list list.old) < 256 }
    ensures matched { FrontMatched target.now (bindings_list list.old) (cell w ∷ []) at result (bindings_list list.new) }
    ensures inside { IfSome result (λ end. end ≤ length target.now) }
{
    if w < VARIABLE {
        return (*target.get(at)? == w).then_some(at + 1);
    }
    let end = term_end(target, at)?;
    match list.find(w) {
        Some(part) => (clipped(target, part) == &target[at..end]).then_some(end),
        None => {
            let part = Part { at, len: end - at };
            list.push(w, part).is_ok().then_some(end)
        }
    }
}

// Extends the bindings so that the pattern becomes a part of the target that begins at `at`, and says where that ends.
// If it can become none, the list may have got new bindings too: a trial takes them back.
pub fn match_front(pattern: &[u32], target: &[u32], at: usize, list: &mut Bindings) -> Option<usize>
    requires room { length (bindings_list list.old) + length pattern.now ≤ 256 }
    ensures { FrontMatched target.now (bindings_list list.old) (row pattern.now) at result (bindings_list list.new) }
{
    let mut end = at;
    for w in pattern {
        end = extend_by(*w, target, end, list)?;
    }
    Some(end)
}

// Where the part of the target ends that the pattern can become at a place under the bindings at hand, which stay as they are.
#[tactic(auto, using(crate::proofs::Generality::tried))]
pub fn fits_at(pattern: &[u32], target: &[u32], at: usize, list: &mut Bindings) -> Option<usize>
    requires room { length (bindings_list list.old) + length pattern.now ≤ 256 }
    ensures answer { Fits target.now (bindings_list list.old) (row pattern.now) at result }
    ensures list { bindings_list list.new ≡ bindings_list list.old }
{
    let old = list.len();
    let trial = Trial { list, old };
    match_front(pattern, target, at, trial.list)
}
