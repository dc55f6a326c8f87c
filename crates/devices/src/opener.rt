//! What opens the files that a command line names.

ghost use Rattle.std.specs.Prelude.{◌≡◌, ℕ, List, IfErr, IfOk, false};
ghost use Rattle.devices.specs.Devices.{IsHeld, IsUnopened, Stands, unknown};
ghost use Rattle.devices.specs.declared.opener.OpenFault.TheVariants.{Unopened};

use crate::device::Source;
use crate::recording::Recording;
use crate::std_device::Std;
use std::fs::{File, Files, OpenFile, metadata};
use std::io;
use std::io::ErrorKind;
use thiserror::Error;

/// Why a file is not opened.
#[derive(Clone, Copy, Debug, Error)]
pub enum OpenFault {
    /// Nothing stands there that may be read.
    #[error("the file cannot be opened")]
    Unopened,
    /// Some growth was refused.
    #[error("out of memory")]
    Memory,
}

impl From<io::Error> for OpenFault {
    fn from(error: io::Error) -> OpenFault {
        match error.kind() {
            ErrorKind::OutOfMemory => OpenFault::Memory,
            _ => OpenFault::Unopened,
        }
    }
}

/// Opens files by their names. A contract sees, where it is told, what stands under a name: bytes, or nothing that can be opened; and whether a read of
/// these bytes may fail.
pub trait Opener {
    /// What is opened.
    type File: Source + Drop;

    // What is known of what stands under a name.
    ghost named: { Self → List ℕ → Stands };

    /// Opens what stands under a name, from its beginning. It is none of the standard streams, not even of those that are closed.
    fn open(&self, name: &str) -> Result<Self::File, OpenFault>
        ensures unfailed { IfOk result (λ file. Self.File.failed file ≡ false) }
        ensures opened { IfOk result (λ file. IsHeld (named self.now name.now) (Self.File.remaining file)) }
        ensures may_fail { IfOk result (λ file. Self.File.may_fail file ≡ (named self.now name.now).may_fail) }
        ensures refused { IfErr result (λ fault. fault ≡ Unopened → IsUnopened (named self.now name.now)) };

    /// What keeps the file of a name from being opened or read, as far as that can be told: `Other` where it can't.
    fn obstacle(&self, name: &str) -> ErrorKind;
}

/// The files of a runtime.
#[derive(Drop)]
pub struct Disk<'a, R>(pub &'a R);

impl<R: Files> Opener for Disk<'_, R> {
    type File = Recording<Std<R::File>>;

    ghost named = { λ _ _. unknown };

    fn open(&self, name: &str) -> Result<Recording<Std<R::File>>, OpenFault> {
        // An opened file gets the number of a standard stream that is closed; a copy of it gets none of these three numbers.
        let file = File::open(self.0, name)?.try_clone()?;
        Ok(Recording::new(Std::new(file)))
    }

    fn obstacle(&self, name: &str) -> ErrorKind {
        match metadata(self.0, name) {
            Ok(found) if found.is_dir() => ErrorKind::IsADirectory,
            // (to open a pipe would wait for who writes to it)
            Ok(found) if !found.is_file() => ErrorKind::Other,
            Ok(_) => match File::open(self.0, name) {
                Ok(_) => ErrorKind::Other,
                Err(error) => error.kind(),
            },
            Err(error) => error.kind(),
        }
    }
}
