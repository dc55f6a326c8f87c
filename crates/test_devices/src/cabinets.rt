//! Files over memory.

use crate::memory::{Feed, source_of};
use devices::{OpenFault, Opener, Recording};
use std::io::ErrorKind;
use std::sync::atomic::{AtomicU32, Ordering};

/// The names under which bytes stand; nothing that can be opened stands under another. It counts what was asked of it.
#[derive(Drop)]
pub struct Cabinet<'a> {
    files: &'a [(&'a str, &'a [u8])],
    fault: OpenFault,
    /// Reading fails behind the bytes.
    pub torn: bool,
    /// Of what is read so many bytes make a piece.
    pub piece: usize,
    asked: AtomicU32,
}

impl<'a> Cabinet<'a> {
    pub fn new(files: &'a [(&'a str, &'a [u8])], fault: OpenFault) -> Cabinet<'a> {
        Cabinet {
            files,
            fault,
            torn: false,
            piece: 4_194_304,
            asked: AtomicU32::new(0),
        }
    }

    /// How often a file was asked for.
    pub fn asked(&self) -> u32 {
        self.asked.load(Ordering::SeqCst)
    }
}

impl<'a> Opener for Cabinet<'a> {
    ghost use Rattle.std.specs.Prelude.{None};
    ghost use Rattle.devices.specs.Devices.{Stands};

    type File = Recording<Feed<'a>>;

    ghost named = { λ c _. record { held = None; may_fail = c.torn } };

    fn open(&self, name: &str) -> Result<Recording<Feed<'a>>, OpenFault> {
        self.asked.fetch_add(1, Ordering::SeqCst);
        for (file, bytes) in self.files {
            if *file == name {
                let mut feed = source_of(*bytes, 7);
                feed.fails = self.torn;
                feed.piece = self.piece;
                return Ok(Recording::new(feed));
            }
        }
        Err(self.fault)
    }

    fn obstacle(&self, _name: &str) -> ErrorKind {
        ErrorKind::NotFound
    }
}
