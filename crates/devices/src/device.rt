//! What a run reads from and writes to.

ghost use Rattle.std.specs.Prelude.{◌≡◌, ◌<◌, ◌≤◌, ◌||◌, ℕ, Bool, List, Option, IfOk, OnErr, OnOk, false, true, length};
ghost use Rattle.std.specs.Io.KnownBytes.{Keeps, ReadConsumes, WriteAppends};
ghost use Rattle.devices.specs.Devices.{is_stuck};

use thiserror::Error;

/// A device could not read or write.
#[derive(Clone, Copy, Debug, Error)]
#[error("the device failed")]
pub struct DeviceFault;

/// What a run reads from. A contract sees the bytes that are left in it, where it tells them, a mark that some read failed, which stays, and whether
/// one may fail at all.
pub trait Source {
    // The bytes that reads will give from here on, where they are told.
    ghost remaining: { Self → Option (List ℕ) };

    // Some read failed.
    ghost failed: { Self → Bool };

    // A read may fail.
    ghost may_fail: { Self → Bool } = { λ _. true };

    /// Reads some bytes into the front of `buf` and tells how many: none at the end alone, or where `buf` is empty.
    ///
    /// `DeviceFault` where the device failed, an interrupted call included; it sets the mark.
    fn read_some(&mut self, buf: &mut [u8]) -> Result<usize, DeviceFault>
        ensures count { IfOk result (λ n. n ≤ length buf.new) }
        ensures bytes { ReadConsumes (remaining self.old) (remaining self.new) result buf.new }
        ensures kept { OnOk result (failed self.new ≡ failed self.old) }
        ensures failed { OnErr result (failed self.new ≡ true) }
        ensures steady { may_fail self.new ≡ may_fail self.old }
        ensures may_fail { OnErr result (may_fail self.old ≡ true) };

    /// The first bytes that were read, as far as it keeps them; a source need not keep any.
    fn front(&self) -> &[u8] {
        &[]
    }

    /// Notes a text on it, where there is one, in the place of what was noted before; a source need not keep any.
    fn note(&self, _text: Option<Vec<u8>>) {}

    /// Takes the text that was noted on it last.
    fn take_note(&self) -> Option<Vec<u8>> {
        None
    }

    /// Whether a read failed since it is a folder, as far as that can be told.
    fn is_folder(&self) -> bool {
        false
    }

    /// How many of its bytes are read at least before some of them are taken into an index.
    fn piece(&self) -> usize
        ensures { 0 < result }
    {
        4_194_304
    }
}

/// What a run writes to. A contract sees the bytes that it holds, where it tells them, a mark that some call failed, which stays,
/// and a mark that nothing was written since the last flush.
pub trait Sink {
    // The bytes that were written, where they are told.
    ghost contents: { Self → Option (List ℕ) };

    // Some write or flush failed, or some write took no byte of a text that has some.
    ghost failed: { Self → Bool };

    // Nothing was written since the last flush.
    ghost flushed: { Self → Bool };

    // Some call failed because nobody reads any more what is written.
    ghost abandoned: { Self → Bool };

    /// Writes some bytes of the front of `bytes` and tells how many. That it takes none, though there are some, sets the mark too.
    ///
    /// `DeviceFault` where the device failed, an interrupted call included; it sets the mark.
    fn write_some(&mut self, bytes: &[u8]) -> Result<usize, DeviceFault>
        ensures count { IfOk result (λ n. n ≤ length bytes.now) }
        ensures bytes { WriteAppends (contents self.old) (contents self.new) result bytes.now }
        ensures kept { IfOk result (λ n. failed self.new ≡ (failed self.old || is_stuck n bytes.now)) }
        ensures failed { OnErr result (failed self.new ≡ true) }
        ensures unflushed { flushed self.new ≡ false };

    /// Sees that what was written arrives.
    ///
    /// `DeviceFault` where the device failed; it sets the mark.
    fn flush_all(&mut self) -> Result<(), DeviceFault>
        ensures bytes { Keeps (contents self.old) (contents self.new) }
        ensures kept { OnOk result (failed self.new ≡ failed self.old) }
        ensures failed { OnErr result (failed self.new ≡ true) }
        ensures flushed { OnOk result (flushed self.new ≡ true) }
        ensures unflushed { OnErr result (flushed self.new ≡ flushed self.old) };

    /// Whether some call failed because nobody reads any more what is written, as at the closed end of a pipe.
    fn is_abandoned(&self) -> bool
        ensures { result ≡ abandoned self.now };
}
