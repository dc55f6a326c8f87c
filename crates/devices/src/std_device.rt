//! Devices over std's readers and writers.

ghost use Rattle.std.specs.Prelude.{◌≡◌, false};

use crate::device::{DeviceFault, Sink, Source};
use std::io::{ErrorKind, IsTerminal, Read, Write};

/// A reader or a writer of std as a source or a sink, with its marks. An interrupted call counts as failed.
#[derive(Drop)]
pub struct Std<T> {
    inner: T,
    failed: bool,
    flushed: bool,
    abandoned: bool,
    folder: bool,
}

impl<T> Std<T> {
    /// The device, unmarked: no call has failed, and nothing was flushed.
    pub fn new(inner: T) -> Std<T>
        ensures inner { result.inner ≡ inner }
        ensures failed { result.failed ≡ false }
        ensures flushed { result.flushed ≡ false }
    {
        Std {
            inner,
            failed: false,
            flushed: false,
            abandoned: false,
            folder: false,
        }
    }
}

impl<T: IsTerminal> IsTerminal for Std<T> {
    fn is_terminal(&self) -> bool {
        self.inner.is_terminal()
    }
}

impl<T: Read> Source for Std<T> {
    ghost remaining = { λ s. T.remaining s.inner };

    ghost failed = { λ s. s.failed };

    fn read_some(&mut self, buf: &mut [u8]) -> Result<usize, DeviceFault> {
        let read = self.inner.read(buf);
        match read {
            Ok(count) => Ok(count),
            Err(error) => {
                self.folder |= error.kind() == ErrorKind::IsADirectory;
                self.failed = true;
                Err(DeviceFault)
            }
        }
    }

    fn is_folder(&self) -> bool {
        self.folder
    }
}

impl<T: Write> Sink for Std<T> {
    ghost contents = { λ s. T.contents s.inner };

    ghost failed = { λ s. s.failed };

    ghost flushed = { λ s. s.flushed };

    ghost abandoned = { λ s. s.abandoned };

    fn write_some(&mut self, bytes: &[u8]) -> Result<usize, DeviceFault> {
        self.flushed = false;
        match self.inner.write(bytes) {
            Ok(count) => {
                if count == 0 && !bytes.is_empty() {
                    self.failed = true;
                }
                Ok(count)
            }
            Err(error) => {
                self.abandoned |= error.kind() == ErrorKind::BrokenPipe;
                self.failed = true;
                Err(DeviceFault)
            }
        }
    }

    fn flush_all(&mut self) -> Result<(), DeviceFault> {
        match self.inner.flush() {
            Ok(()) => {
                self.flushed = true;
                Ok(())
            }
            Err(error) => {
                self.abandoned |= error.kind() == ErrorKind::BrokenPipe;
                self.failed = true;
                Err(DeviceFault)
            }
        }
    }

    fn is_abandoned(&self) -> bool {
        self.abandoned
    }
}
