// Unification by a list of links between places, closed under congruence, and one walk for cycles.
ghost use Rattle.std.specs.Prelude.{◌≤◌, length};
ghost use Rattle.unification.specs.Memory.{Memory, over};
ghost use Rattle.unification.specs.Close.{Fit};

use crate::kinds::Kinds;
use arrayvec::ArrayVec;

// Rows in one memory, and which of its places were made one: behind a link its first place no longer stands for itself, and its second stands for both.
// A place is a position, or a variable's own word: both are words of one range, as the memory lays them out.
#[derive(Drop)]
pub struct Unifier<'a> {
    cells: &'a [u32],
    kinds: Kinds,
    links: ArrayVec<(u32, u32), 512>,
    ghost memory: { Memory cells.now },
    ghost small: { length cells.now ≤ 512 },
    ghost fit: { Fit (over kinds cells.now) (length cells.now) 512 links.items },
}

mod closing;
mod places;
mod solving;
mod walking;
mod writing;
