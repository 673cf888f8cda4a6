// Writing a row under bindings.
ghost use Rattle.std.specs.Prelude.{◌≡◌, ◌≤◌, [], ◌∷◌, ◌++◌, length, take, drop};
ghost use Rattle.substitution.specs.Bindings.{bindings_list, under, Measured, Written};

use crate::bindings::{Bindings, Part};
use cells::VARIABLE;
use std::slice;

// The part, as far as the source goes.
pub fn clipped(source: &[u32], part: Part) -> &[u32]
    ensures { result.now ≡ take part.len (drop part.at source.now) }
{
    let start = part.at.min(source.len());
    let len = part.len.min(source.len() - start);
    &source[start..start + len]
}

// What is put for a cell of the pattern: a part of the source, or the cell itself.
#[tactic(auto, using(crate::proofs::Under::parts))]
fn piece<'a>(w: &'a u32, bindings: &Bindings, source: &'a [u32]) -> &'a [u32]
    ensures { result.now ≡ under source.now (bindings_list bindings.now) (w.now ∷ []) }
{
    if *w >= VARIABLE
        && let Some(part) = bindings.find(*w)
    {
        clipped(source, part)
    } else {
        slice::from_ref(w)
    }
}

// How many words the pattern has under the bindings, if no more than `room`.
#[tactic(auto, using(crate::proofs::Under::pieces))]
pub fn length_under(
    pattern: &[u32],
    bindings: &Bindings,
    source: &[u32],
    room: usize,
) -> Option<usize>
    ensures { Measured (under source.now (bindings_list bindings.now) pattern.now) room result }
{
    let mut left = room;
    for w in pattern {
        left = left.checked_sub(piece(w, bindings, source).len())?;
    }
    Some(room - left)
}

// Writes the pattern under the bindings, which has room, to the front of `out`.
#[tactic(auto, using(crate::proofs::Under::pieces))]
fn write_under(pattern: &[u32], bindings: &Bindings, source: &[u32], out: &mut [u32])
    requires { length (under source.now (bindings_list bindings.now) pattern.now) ≤ length out.old }
    ensures { let ws = under source.now (bindings_list bindings.now) pattern.now in out.new ≡ ws ++ drop (length ws) out.old }
{
    // the place in the caller's buffer
    let mut end = 0;
    for w in pattern {
        let words = piece(w, bindings, source);
        out[end..end + words.len()].copy_from_slice(words);
        end += words.len();
    }
}

// Writes the pattern, with the bound parts of the source put for its variables, to the front of `out`, and says how many words that is.
pub fn substitute_into(
    pattern: &[u32],
    bindings: &Bindings,
    source: &[u32],
    out: &mut [u32],
) -> Option<usize>
    ensures { Written (under source.now (bindings_list bindings.now) pattern.now) out.old result out.new }
{
    let n = length_under(pattern, bindings, source, out.len())?;
    write_under(pattern, bindings, source, out);
    Some(n)
}
