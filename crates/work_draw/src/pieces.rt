//! What is made of the numbers that are drawn, and the pieces of all workers in the order of their numbers.
ghost use Rattle.std.specs.Prelude.{IfOk};
ghost use Rattle.work_draw.specs.Drawing.{HoldsEachOnce};
ghost use Rattle.work_draw.specs.Checks.{numbers_of, InOrderOfNumber};

use crate::board::Drawer;
use deb_verdict::Verdict;
use std::alloc::{AllocError, Global};

/// The verdicts of one chunk, or what else is found of a number.
#[derive(Drop)]
pub struct Piece<V = Vec<Verdict>> {
    /// The chunk's number, from 0.
    pub number: u32,
    /// One verdict for each place of the chunk, in the order in which they were asked.
    pub verdicts: V,
}

/// What one worker leaves.
#[derive(Drop)]
pub struct Drawn<V = Vec<Verdict>> {
    /// The worker's drawer, with the numbers that it drew.
    pub drawer: Drawer,
    /// A piece for each number that was drawn in the call, in the order of the draws; none for those that the drawer had before.
    pub pieces: Vec<Piece<V>>,
    /// Whether memory was refused; then the worker stopped, and the last number drawn may lack its piece.
    pub refused: bool,
}

/// The verdicts of the pieces by rising number, where each number below `total` stands once and no other does.
/// The pieces are consumed, also where memory is refused.
pub fn gather<T: Drop>(
    alloc: Global,
    total: u32,
    mut pieces: Vec<Piece<Vec<T>>>,
) -> Result<Vec<T>, AllocError>
    requires { HoldsEachOnce total (numbers_of pieces.items) }
    ensures { IfOk result (λ all. InOrderOfNumber total pieces.items all.items) }
{
    pieces.sort_unstable_by_key(|piece| piece.number);
    let mut all = Vec::new(alloc);
    for piece in pieces {
        let Piece {
            number: _,
            mut verdicts,
        } = piece;
        all.append(&mut verdicts)?;
    }
    Ok(all)
}
