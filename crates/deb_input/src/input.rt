//! Reading to the end.

ghost use Rattle.std.specs.Prelude.{◌≡◌, ◌<◌, ◌≤◌, ◌+◌, ◌^◌, ℕ, List, OnOk, IfOk, IfErr, length, true};
ghost use Rattle.std.specs.Io.KnownBytes.{Consumes, IsAtEnd};
ghost use Rattle.deb_input.specs.Inputs.{FailsToRead, ReadsOneOver};

use crate::fault::RunFault;
use crate::held::Held;
use devices::Source;
use std::alloc::Global;

/// How many bytes are read at once at most.
const STEP: usize = 262_144;

/// Reads to the end and keeps nothing.
///
/// `Read` where a read failed, and no other fault then; `TooLong` as soon as one byte more than the limit was read; `Memory`.
pub(crate) fn skip_rest<S: Source>(
    alloc: Global,
    reader: &mut S,
    limit: usize,
) -> Result<(), RunFault>
    requires limit { limit + 1 < 2 ^ 64 }
    ensures bytes { OnOk result ((bytes : List ℕ) × Consumes (S.remaining reader.old) (S.remaining reader.new) bytes × (length bytes ≤ limit)) }
    ensures end { OnOk result (IsAtEnd (S.remaining reader.new)) }
    ensures mark { OnOk result (S.failed reader.new ≡ S.failed reader.old) }
    ensures refused { IfErr result (FailsToRead (S.remaining reader.old) (S.failed reader.old) (S.failed reader.new) limit) }
    ensures may_fail { IfErr result (λ fault. fault ≡ RunFault.Read → S.may_fail reader.old ≡ true) }
{
    let mut held = Held::new(alloc);
    let mut left = limit + 1;
    'reads: while left > 0 {
        let count = left.min(STEP);
        if !held.read_more(reader, count)? {
            return Ok(());
        }
        held.drop_front(count);
        left -= count;
    }
    Err(RunFault::TooLong)
}

/// Reads to the end: all bytes, where there are no more than the limit.
///
/// `Read` where a read failed, and no other fault then; `TooLong` as soon as one byte more than the limit was read, and nothing is read
/// after it; `Memory`. It makes at most two reads more than the limit has bytes, each of which asks for up to 256 KiB.
pub fn read_all<S: Source>(alloc: Global, reader: &mut S, limit: usize) -> Result<Vec<u8>, RunFault>
    requires { limit + 1 < 2 ^ 64 }
    ensures bytes { IfOk result (λ bytes. Consumes (S.remaining reader.old) (S.remaining reader.new) bytes.items) }
    ensures end { OnOk result (IsAtEnd (S.remaining reader.new)) }
    ensures within { IfOk result (λ bytes. length bytes.items ≤ limit) }
    ensures mark { OnOk result (S.failed reader.new ≡ S.failed reader.old) }
    ensures refused { IfErr result (FailsToRead (S.remaining reader.old) (S.failed reader.old) (S.failed reader.new) limit) }
    ensures may_fail { IfErr result (λ fault. fault ≡ RunFault.Read → S.may_fail reader.old ≡ true) }
    ensures over { IfErr result (ReadsOneOver limit (S.remaining reader.old) (S.remaining reader.new)) }
{
    let mut held = Held::new(alloc);
    'reads: while held.len() <= limit {
        let count = (limit + 1 - held.len()).min(STEP);
        if !held.read_more(reader, count)? {
            return Ok(held.into_bytes());
        }
    }
    Err(RunFault::TooLong)
}
