//! A source that keeps its beginning, and a text that is noted on it.

ghost use Rattle.std.specs.Prelude.{◌≡◌};

use crate::device::{DeviceFault, Source};
use arrayvec::ArrayVec;
use std::cell::Cell;
use std::io::IsTerminal;

/// How many bytes are kept.
const FRONT_LIMIT: usize = 4_096;

/// A source that keeps the first 4,096 bytes that are read through it, and a text that is noted on it. It takes no memory but its own.
#[derive(Drop)]
pub struct Recording<S> {
    inner: S,
    front: ArrayVec<u8, FRONT_LIMIT>,
    noted: Cell<Option<Vec<u8>>>,
}

impl<S> Recording<S> {
    /// The source, of which nothing is kept yet.
    pub fn new(inner: S) -> Recording<S>
        ensures { result.inner ≡ inner }
    {
        Recording {
            inner,
            front: ArrayVec::new(),
            noted: Cell::new(None),
        }
    }
}

impl<S: Source> Source for Recording<S> {
    ghost remaining = { λ r. S.remaining r.inner };

    ghost failed = { λ r. S.failed r.inner };

    ghost may_fail = { λ r. S.may_fail r.inner };

    fn read_some(&mut self, buf: &mut [u8]) -> Result<usize, DeviceFault> {
        let count = self.inner.read_some(buf)?;
        let kept = self.front.remaining_capacity().min(count);
        let _ = self.front.try_extend_from_slice(&buf[..kept]);
        Ok(count)
    }

    fn front(&self) -> &[u8] {
        self.front.as_slice()
    }

    fn note(&self, text: Option<Vec<u8>>) {
        if text.is_some() {
            self.noted.set(text);
        }
    }

    fn take_note(&self) -> Option<Vec<u8>> {
        self.noted.replace(None)
    }

    fn is_folder(&self) -> bool {
        self.inner.is_folder()
    }

    fn piece(&self) -> usize {
        self.inner.piece()
    }
}

impl<S: IsTerminal> IsTerminal for Recording<S> {
    fn is_terminal(&self) -> bool {
        self.inner.is_terminal()
    }
}
