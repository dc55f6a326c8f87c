//! A text that is read piece by piece: little more of it is held than a piece.

ghost use Rattle.std.specs.Prelude.{◌≡◌, ◌<◌, ◌≤◌, ◌+◌, ◌-◌, IfErr, IfOk, OnOk, drop, false, length, true};
ghost use Rattle.std.specs.Io.KnownBytes.{IsAtEnd};
ghost use Rattle.deb_index.specs.Reading.{byte_limit};
ghost use Rattle.run_settings.specs.Settings.{settings_of};
ghost use Rattle.deb_input.specs.Pieces.{FailsToFinish, HoldsMore, MakesIndex, ReadsText};
ghost use Rattle.deb_input.specs.Pieces.{RefusesPiece, TakesLast, TakesPiece};
ghost use Rattle.deb_input.specs.Inputs.{FailsToRead, is_unread};

use crate::fault::RunFault;
use crate::held::Held;
use crate::input::skip_rest;
use deb_control::cut_behind_blank;
use deb_index::{BothError, Index, IndexError, PART_SIZE, PartialIndex, TEXT_LIMIT};
use devices::Source;
use run_settings::Config;
use std::alloc::Global;
use std::thread::Threads;

/// What a text came to that was read to its end.
#[derive(Drop)]
pub struct TextRead {
    /// The index of all of it, or the first fault of its stanzas.
    pub outcome: Result<PartialIndex, IndexError>,
    /// The piece that was taken last, or the one with the fault.
    pub last: Vec<u8>,
}

/// Takes what is held into the index, up to the first empty line of its last quarter. Answers how many bytes that are: none, where there is no such
/// line.
fn take_piece<R: Threads + Sync>(
    rt: &R,
    alloc: Global,
    config: &Config,
    front: PartialIndex,
    held: &[u8],
) -> Result<(PartialIndex, usize), IndexError>
    requires short { front.size + length held.now ≤ byte_limit }
    ensures within { IfOk result (λ r. r.1 ≤ length held.now) }
    ensures taken { IfOk result (λ r. TakesPiece (settings_of config.now) front held.now r.0 (drop r.1 held.now)) }
    ensures refused { IfErr result (RefusesPiece (settings_of config.now) front held.now) }
{
    let (piece, rest) = cut_behind_blank(held, held.len() / 4 * 3);
    if rest.is_empty() {
        return Ok((front, 0));
    }
    let next = front.take(rt, alloc, piece, config.workers, PART_SIZE)?;
    Ok((next, piece.len()))
}

/// Takes all that is held into the index, behind which the text ends.
fn take_last<R: Threads + Sync>(
    rt: &R,
    alloc: Global,
    config: &Config,
    front: PartialIndex,
    held: &[u8],
) -> Result<Result<PartialIndex, IndexError>, RunFault>
    requires short { front.size + length held.now ≤ byte_limit }
    ensures outcome { IfOk result (TakesLast (settings_of config.now) front held.now) }
    ensures refused { IfErr result (λ fault. fault ≡ RunFault.Memory) }
{
    match front.take(rt, alloc, held, config.workers, PART_SIZE) {
        Ok(whole) => Ok(Ok(whole)),
        Err(IndexError::Memory) => Err(RunFault::Memory),
        Err(fault) => Ok(Err(fault)),
    }
}

/// Reads a piece more behind what is held, or all that is left where that is less, and tells whether it was less. No more than the limit is held.
fn read_piece<S: Source>(
    reader: &mut S,
    held: &mut Held,
    piece: usize,
    limit: usize,
) -> Result<bool, RunFault>
    requires piece { 0 < piece }
    requires held { length held.old ≤ limit }
    requires limit { limit ≤ byte_limit }
    ensures bytes { OnOk result (HoldsMore held.old held.new (S.remaining reader.old) (S.remaining reader.new)) }
    ensures within { OnOk result (length held.new ≤ limit) }
    ensures more { IfOk result (λ last. last ≡ false → length held.old < length held.new) }
    ensures end { IfOk result (λ last. last ≡ true → IsAtEnd (S.remaining reader.new)) }
    ensures mark { OnOk result (S.failed reader.new ≡ S.failed reader.old) }
    ensures refused { IfErr result (FailsToRead (S.remaining reader.old) (S.failed reader.old) (S.failed reader.new) (limit - length held.old)) }
    ensures steady { S.may_fail reader.new ≡ S.may_fail reader.old }
    ensures may_fail { IfErr result (λ fault. fault ≡ RunFault.Read → S.may_fail reader.old ≡ true) }
{
    // Where no empty line was found, as much again is read before the next try, so that a text without such lines is looked through a few times
    // only.
    let count = piece.max(held.len()).min(limit + 1 - held.len());
    let full = held.read_more(reader, count)?;
    if held.len() > limit {
        return Err(RunFault::TooLong);
    }
    Ok(!full)
}

/// Reads all that is left in a reader, a piece of at least so many bytes at a time, each of which is taken into the index by the workers side by side
/// and given back, for any number of workers (0 count as 1). A few times as many bytes are held, and more only where a long part of the text has no empty
/// line.
///
/// `Read` where a read failed; `TooLong` where there are over `deb_index::TEXT_LIMIT` bytes; or `Memory`. Either goes before a fault of the text.
pub fn read_text<S: Source, R: Threads + Sync>(
    rt: &R,
    alloc: Global,
    config: &Config,
    reader: &mut S,
    piece: usize,
) -> Result<TextRead, RunFault>
    requires { 0 < piece }
    ensures end { OnOk result (IsAtEnd (S.remaining reader.new)) }
    ensures mark { OnOk result (S.failed reader.new ≡ S.failed reader.old) }
    ensures held { IfOk result (λ read. length read.last.items ≤ byte_limit) }
    ensures text { IfOk result (λ read. ReadsText (settings_of config.now)
        (S.remaining reader.old) (S.remaining reader.new) (S.failed reader.old) (S.failed reader.new) read.outcome) }
    ensures refused { IfErr result (FailsToRead (S.remaining reader.old) (S.failed reader.old) (S.failed reader.new) byte_limit) }
    ensures may_fail { IfErr result (λ fault. fault ≡ RunFault.Read → S.may_fail reader.old ≡ true) }
{
    let mut front = PartialIndex::new(alloc, config.arch.as_str(), config.essential)?;
    let mut held = Held::new(alloc);
    'pieces: loop {
        let limit = TEXT_LIMIT - front.size();
        if read_piece(reader, &mut held, piece, limit)? {
            let outcome = take_last(rt, alloc, config, front, held.as_slice())?;
            let last = held.into_bytes();
            return Ok(TextRead { outcome, last });
        }
        match take_piece(rt, alloc, config, front, held.as_slice()) {
            Ok((next, taken)) => {
                front = next;
                held.drop_front(taken);
            }
            Err(IndexError::Memory) => return Err(RunFault::Memory),
            Err(fault) => {
                skip_rest(alloc, reader, limit - held.len())?;
                let (outcome, last) = (Err(fault), held.into_bytes());
                return Ok(TextRead { outcome, last });
            }
        }
    }
}

/// The index of a text that was read to its end, and of what stands behind it.
///
/// `Index` where the text has a fault, the first one; `Background` where it has none and what stands behind it has one, the first one; or `Memory`.
pub fn finish<R: Threads + Sync>(
    rt: &R,
    alloc: Global,
    config: &Config,
    outcome: Result<PartialIndex, IndexError>,
    more: &[u8],
) -> Result<Index, RunFault>
    requires { length more.now ≤ byte_limit }
    ensures index { IfOk result (MakesIndex (settings_of config.now) outcome more.now) }
    ensures refused { IfErr result (FailsToFinish (settings_of config.now) outcome more.now) }
    ensures read { IfErr result (λ fault. is_unread fault ≡ false) }
{
    match outcome {
        Err(fault) => Err(RunFault::Index(fault)),
        Ok(whole) => match whole.finish(rt, alloc, more, config.workers, PART_SIZE) {
            Ok(index) => Ok(index),
            Err(BothError::Memory) => Err(RunFault::Memory),
            Err(BothError::Fore(fault)) => Err(RunFault::Index(fault)),
            Err(BothError::Back(fault)) => Err(RunFault::Background(fault)),
        },
    }
}
