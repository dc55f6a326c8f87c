//! Bytes that were read and are not yet taken.

ghost use Rattle.std.specs.Prelude.{◌≡◌, ◌<◌, ◌+◌, ◌^◌, ◌≤◌, [], IfErr, IfOk, OnOk, drop, length, take, true};
ghost use Rattle.std.specs.Io.KnownBytes.{IsAtEnd};
ghost use Rattle.deb_input.specs.Pieces.{HoldsMore, TellsFull};
ghost use Rattle.deb_input.specs.Inputs.{FailsAtRead};

use crate::fault::RunFault;
use devices::Source;
use std::alloc::{AllocError, Global};
use std::marker::Model;

/// How many bytes are read at once at least, where so many are wanted.
const LEAST: usize = 65_536;

/// Bytes that were read and are not yet taken. Their memory is kept for the next ones, since what is given back and asked for again
/// costs time. Contracts see it as the bytes.
#[derive(Drop)]
pub(crate) struct Held {
    /// Room for bytes, whose front has those that are held.
    bytes: Vec<u8>,
    /// How many these are.
    filled: usize,
}

impl Model for Held {
    ghost use Rattle.std.specs.Prelude.{◌≤◌, ℕ, List, length, take};

    ghost Value = { List ℕ };

    ghost view = { λ h. take h.filled h.bytes.items };

    ghost invariant = { λ h. h.filled ≤ length h.bytes.items };
}

/// Makes room for so many bytes in all, where there is less.
fn widen(bytes: &mut Vec<u8>, size: usize) -> Result<(), AllocError>
    ensures room { OnOk result (size ≤ length bytes.new.items) }
    ensures kept { take (length bytes.old.items) bytes.new.items ≡ bytes.old.items }
{
    if bytes.len() < size {
        bytes.resize(size, 0)?;
    }
    Ok(())
}

impl Held {
    pub(crate) fn new(alloc: Global) -> Held
        ensures { result ≡ [] }
    {
        Held {
            bytes: Vec::new(alloc),
            filled: 0,
        }
    }

    pub(crate) fn as_slice(&self) -> &[u8]
        ensures value { result.now ≡ self.now }
    {
        &self.bytes[..self.filled]
    }

    pub(crate) fn len(&self) -> usize
        ensures { result ≡ length self.now }
    {
        self.filled
    }

    /// How many of so many bytes are read next: as many as there is room for, or as are held, so that a short text asks for little memory.
    fn part_of(&self, count: usize) -> usize
        requires { 0 < count }
        ensures some { 0 < result }
        ensures within { result ≤ count }
    {
        let room = self.bytes.len() - self.filled;
        room.max(self.filled).max(LEAST).min(count)
    }

    /// Reads up to so many bytes more behind those that are held, by one read; how many came.
    fn read_part<S: Source>(&mut self, reader: &mut S, count: usize) -> Result<usize, RunFault>
        requires some { 0 < count }
        requires count { length self.old + count < 2 ^ 64 }
        ensures bytes { OnOk result (HoldsMore self.old self.new (S.remaining reader.old) (S.remaining reader.new)) }
        ensures came { IfOk result (λ came. (length self.new ≡ length self.old + came) × (came ≤ count)) }
        ensures end { IfOk result (λ came. came ≡ 0 → IsAtEnd (S.remaining reader.new)) }
        ensures mark { OnOk result (S.failed reader.new ≡ S.failed reader.old) }
        ensures refused { IfErr result (FailsAtRead (S.failed reader.old) (S.failed reader.new)) }
        ensures steady { S.may_fail reader.new ≡ S.may_fail reader.old }
        ensures may_fail { IfErr result (λ fault. fault ≡ RunFault.Read → S.may_fail reader.old ≡ true) }
    {
        let wanted = self.filled + count;
        widen(&mut self.bytes, wanted)?;
        match reader.read_some(&mut self.bytes[self.filled..wanted]) {
            Err(_) => Err(RunFault::Read),
            Ok(came) => {
                self.filled += came;
                Ok(came)
            }
        }
    }

    /// Reads so many bytes more behind those that are held, or all that are left where they are fewer; whether there were so many.
    ///
    /// `Read` where a read failed, and no other fault then; or `Memory`.
    pub(crate) fn read_more<S: Source>(
        &mut self,
        reader: &mut S,
        count: usize,
    ) -> Result<bool, RunFault>
        requires count { length self.old + count < 2 ^ 64 }
        ensures bytes { OnOk result (HoldsMore self.old self.new (S.remaining reader.old) (S.remaining reader.new)) }
        ensures full { IfOk result (TellsFull count self.old self.new (S.remaining reader.new)) }
        ensures mark { OnOk result (S.failed reader.new ≡ S.failed reader.old) }
        ensures refused { IfErr result (FailsAtRead (S.failed reader.old) (S.failed reader.new)) }
        ensures steady { S.may_fail reader.new ≡ S.may_fail reader.old }
        ensures may_fail { IfErr result (λ fault. fault ≡ RunFault.Read → S.may_fail reader.old ≡ true) }
    {
        let wanted = self.len() + count;
        'reads: while self.len() < wanted {
            let part = self.part_of(wanted - self.len());
            if self.read_part(reader, part)? == 0 {
                return Ok(false);
            }
        }
        Ok(true)
    }

    /// Drops so many of the first bytes.
    pub(crate) fn drop_front(&mut self, count: usize)
        requires { count ≤ length self.old }
        ensures { self.new ≡ drop count self.old }
    {
        self.bytes.copy_within(count..self.filled, 0);
        self.filled -= count;
    }

    /// The bytes by themselves.
    pub(crate) fn into_bytes(self) -> Vec<u8>
        ensures { result.items ≡ self }
    {
        let Held { mut bytes, filled } = self;
        bytes.truncate(filled);
        bytes
    }
}
