//! An index whose text comes in pieces, so that no more than one of them need be held.
ghost use Rattle.std.specs.Prelude.{◌≡◌, ◌+◌, ◌≤◌, [], IfOk, IfErr, length};
ghost use Rattle.deb_index.specs.Built.{Accepts, FailsBehind, Finishes, IsFrontOf, Refuses};
ghost use Rattle.deb_index.specs.Reading.{IsBare, byte_limit};

use crate::builder::Builder;
use crate::error::{BothError, IndexError, in_back};
use crate::index::Index;
use crate::parts::in_many;
use std::alloc::{AllocError, Global};
use std::marker::Model;
use std::thread::Threads;

/// An index of which a front of its text was read, piece by piece. Each call takes it and gives back one of which more was read.
#[derive(Drop)]
pub struct PartialIndex {
    builder: Builder,
    size: usize,
}

impl Model for PartialIndex {
    ghost use Rattle.deb_index.specs.Built.{FrontView, IsWithin, front_of};

    ghost Value = { FrontView };

    ghost view = { λ p. front_of p.builder p.size };

    ghost invariant = { λ p. IsWithin (front_of p.builder p.size) };
}

impl PartialIndex {
    /// An index of no text, for an architecture; without `essential` no name is essential.
    pub fn new(alloc: Global, arch: &str, essential: bool) -> Result<PartialIndex, AllocError>
        ensures { IfOk result (IsFrontOf arch.now essential []) }
    {
        let builder = Builder::new(alloc, arch.as_bytes(), essential)?;
        Ok(PartialIndex { builder, size: 0 })
    }

    /// How many bytes of the text were read: at most `TEXT_LIMIT`.
    pub fn size(&self) -> usize
        ensures value { result ≡ self.now.size }
        ensures short { self.now.size ≤ byte_limit }
    {
        self.size
    }

    /// Takes in the next piece of the text, which so many workers read side by side, each a part of its own; 0 workers count as 1. What is
    /// answered is the same for any number of workers, and for any `least`: a piece of fewer than `2 * least` bytes is read by one worker.
    /// `PART_SIZE` is a good `least` where time counts. What was read before has to end where no stanza goes on, as
    /// `deb_control::cut_behind_blank` cuts.
    ///
    /// The error is the fault of the first stanza that has one, with its number in the whole text, or want of memory. Nothing behind the
    /// piece changes that fault, where the piece ends so, too.
    pub fn take<R: Threads + Sync>(
        self,
        rt: &R,
        alloc: Global,
        piece: &[u8],
        workers: u32,
        least: usize,
    ) -> Result<PartialIndex, IndexError>
        requires short { self.size + length piece.now ≤ byte_limit }
        ensures accepted { IfOk result (Accepts self piece.now) }
        ensures refused { IfErr result (Refuses self piece.now) }
    {
        let PartialIndex { builder, size } = self;
        let parted = in_many(rt, alloc, builder.arch(), piece, workers, least)?;
        let builder = builder.add_behind(alloc, 0, parted)?;
        Ok(PartialIndex {
            builder,
            size: size + piece.len(),
        })
    }

    /// The index of the text, which is the foreground, and of a background behind it, read by so many workers: what `Index::read_both` answers.
    pub fn finish<R: Threads + Sync>(
        self,
        rt: &R,
        alloc: Global,
        background: &[u8],
        workers: u32,
        least: usize,
    ) -> Result<Index, BothError>
        requires { length background.now ≤ byte_limit }
        ensures accepted { IfOk result (Finishes self background.now) }
        ensures refused { IfErr result (FailsBehind self background.now) }
        ensures bare { IfErr result IsBare }
    {
        let PartialIndex { builder, size: _ } = self;
        let fore = builder.end_foreground();
        let parted = in_many(rt, alloc, fore.arch(), background, workers, least)?;
        let before = fore.stanzas();
        let both = match fore.add_behind(alloc, before, parted) {
            Ok(both) => both,
            Err(error) => return Err(in_back(error)),
        };
        let unlinked = both.finish(alloc)?;
        let index = unlinked.link_on(rt, alloc, workers)?;
        Ok(index)
    }
}
