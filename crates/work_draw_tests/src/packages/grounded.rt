//! An index with its groundwork.

ghost use Rattle.std.specs.Prelude.{◌≡◌};

use deb_index::Index;
use deb_verdict::Groundwork;
use std::alloc::{AllocError, Global};

#[derive(Drop)]
pub struct Grounded<'a> {
    pub index: &'a Index,
    pub groundwork: Groundwork<'a>,
    ghost same: { groundwork.index.now ≡ index.now },
}

impl<'a> Grounded<'a> {
    /// The error is want of memory.
    pub fn new(alloc: Global, index: &'a Index) -> Result<Grounded<'a>, AllocError> {
        let groundwork = Groundwork::new(alloc, index)?;
        Ok(Grounded { index, groundwork })
    }
}
