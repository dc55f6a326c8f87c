//! Texts of a test, and the calls that read them.

use deb_control::cut_behind_blank;
use deb_index::{BothError, Index, IndexError, PartialIndex, TEXT_LIMIT};
use std::alloc::Global;
use std::process::Abort;
use std::thread::Threads;
use test_texts::index_of;

/// Texts, each with the call that reads them for amd64.
#[derive(Clone, Copy)]
pub enum Texts<'a> {
    /// A text and a background, which are written shortly, and whether the essential names count.
    Short(&'a str, &'a str, bool),
    /// One text, and whether the essential names count.
    One(&'a [u8], bool),
    /// A text and a background, and whether the essential names count.
    Both(&'a [u8], &'a [u8], bool),
    /// A text and a background for so many workers, who cut the shortest texts. The essential names count.
    Parted(&'a [u8], &'a [u8], u32),
    /// A text that comes in pieces, and a background, each read by so many workers. The essential names count.
    Pieces(&'a [&'a [u8]], &'a [u8], u32),
}

fn read_one(alloc: Global, text: &[u8], essential: bool) -> Result<Index, BothError> {
    if text.len() > TEXT_LIMIT {
        return Err(BothError::Memory);
    }
    match Index::read(alloc, text, "amd64", essential) {
        Ok(index) => Ok(index),
        Err(IndexError::Memory) => Err(BothError::Memory),
        Err(fault) => Err(BothError::Fore(fault)),
    }
}

fn read_both(
    alloc: Global,
    text: &[u8],
    background: &[u8],
    essential: bool,
) -> Result<Index, BothError> {
    if text.len() > TEXT_LIMIT || background.len() > TEXT_LIMIT {
        return Err(BothError::Memory);
    }
    Index::read_both(alloc, text, background, "amd64", essential)
}

fn read_short(
    alloc: Global,
    text: &str,
    background: &str,
    essential: bool,
) -> Result<Index, BothError> {
    let (text, background) = (index_of(alloc, text)?, index_of(alloc, background)?);
    read_both(alloc, text.as_bytes(), background.as_bytes(), essential)
}

fn with_piece(
    rt: &(impl Threads + Sync + AllocGlobal),
    so_far: PartialIndex,
    piece: &[u8],
    workers: u32,
) -> Result<PartialIndex, BothError> {
    if piece.len() > TEXT_LIMIT - so_far.size() {
        return Err(BothError::Memory);
    }
    match so_far.take(rt, rt.alloc(), piece, workers, 0) {
        Ok(more) => Ok(more),
        Err(IndexError::Memory) => Err(BothError::Memory),
        Err(fault) => Err(BothError::Fore(fault)),
    }
}

fn read_in_pieces(
    rt: &(impl Threads + Sync + AllocGlobal),
    pieces: &[&[u8]],
    background: &[u8],
    workers: u32,
) -> Result<Index, BothError> {
    if background.len() > TEXT_LIMIT {
        return Err(BothError::Memory);
    }
    let mut so_far = PartialIndex::new(rt.alloc(), "amd64", true)?;
    for piece in pieces {
        so_far = with_piece(rt, so_far, piece, workers)?;
    }
    so_far.finish(rt, rt.alloc(), background, workers, 0)
}

/// The index of texts.
///
/// # Errors
///
/// A fault of one of the texts; for want of memory, and where a text is too long, `Memory`.
pub fn read(rt: &(impl Threads + Sync + AllocGlobal), texts: Texts) -> Result<Index, BothError> {
    match texts {
        Texts::Short(text, background, essential) => {
            read_short(rt.alloc(), text, background, essential)
        }
        Texts::One(text, essential) => read_one(rt.alloc(), text, essential),
        Texts::Both(text, background, essential) => {
            read_both(rt.alloc(), text, background, essential)
        }
        Texts::Parted(text, background, workers) => {
            read_in_pieces(rt, &[text], background, workers)
        }
        Texts::Pieces(pieces, background, workers) => {
            read_in_pieces(rt, pieces, background, workers)
        }
    }
}

/// A text in pieces, each of which ends behind the first empty line from so many bytes on.
pub fn in_pieces<'a>(
    rt: &(impl Abort + AllocGlobal),
    text: &'a [u8],
    least: usize,
) -> Vec<&'a [u8]> {
    let mut pieces = Vec::new(rt.alloc());
    let mut rest = text;
    for _ in 0..text.len() {
        let (front, back) = cut_behind_blank(rest, least.min(rest.len()));
        pieces.push(front).expect(rt, "no memory");
        if back.is_empty() {
            break;
        }
        rest = back;
    }
    pieces
}
