//! Why an index is refused.
ghost use Rattle.std.specs.Prelude.{◌≡◌, ◌≢◌, Err, Result, ℕ};
ghost use Rattle.deb_index.specs.declared.error.IndexError.TheVariants.{Memory};
ghost use Rattle.deb_index.specs.Reading.{IsBare, field_name};

use deb_control::ControlError;
use std::alloc::{AllocError, AllocFailed};
use thiserror::Error;

/// A field of relationships between packages that an index reads (Debian Policy 7.1), in the order in which a stanza's fields are judged.
#[derive(Clone, Copy, PartialEq, Eq, Debug)]
pub enum RelField {
    PreDepends,
    Depends,
    Conflicts,
    Breaks,
    Provides,
}

impl RelField {
    /// The field's name, as a stanza spells it (deb-control(5)).
    pub fn name(self) -> &'static str
        ensures { result.now ≡ field_name self }
    {
        match self {
            RelField::PreDepends => "Pre-Depends",
            RelField::Depends => "Depends",
            RelField::Conflicts => "Conflicts",
            RelField::Breaks => "Breaks",
            RelField::Provides => "Provides",
        }
    }
}

/// Why an index is refused: the fault of its first stanza that has one. `stanza` is that stanza's number in the text, counted from 1.
///
/// Within a stanza `TooManyStanzas` goes first, and then the order is that of the variants here.
#[derive(Clone, Copy, PartialEq, Eq, Debug, Error)]
pub enum IndexError {
    /// A line is no field and no continuation of one (Debian Policy 5.1).
    #[error("stanza {stanza}: bad line")]
    BadLine { stanza: u64 },
    /// Two fields have one name, letter case ignored (Debian Policy 5.1).
    #[error("stanza {stanza}: repeated field")]
    RepeatedField { stanza: u64 },
    /// `Package`, `Version` or `Architecture` is absent or empty (Debian Policy 5.3).
    #[error("stanza {stanza}: missing field")]
    MissingField { stanza: u64 },
    /// `Package` isn't a package name (Debian Policy 5.6.7).
    #[error("stanza {stanza}: bad name")]
    BadName { stanza: u64 },
    /// `Version` isn't a version (Debian Policy 5.6.12, deb-version(7)).
    #[error("stanza {stanza}: bad version")]
    BadVersion { stanza: u64 },
    /// The field can't be read (Debian Policy 7.1), or an entry of `Provides` has an operator other than `=` (7.5). Stanzas of another
    /// architecture have no such fault.
    #[error("stanza {stanza}: bad relation")]
    BadRelation { stanza: u64, field: RelField },
    /// There are more than `STANZA_LIMIT` stanzas, 4,194,304, and this is the first one beyond.
    #[error("stanza {stanza}: too many stanzas")]
    TooManyStanzas { stanza: u64 },
    /// Memory was refused.
    #[error("out of memory")]
    Memory,
}

impl From<AllocError> for IndexError {
    ghost from_gives = { λ _ e. e ≡ Memory };

    fn from(_e: AllocError) -> IndexError {
        IndexError::Memory
    }
}

impl<T: Drop> From<AllocFailed<T>> for IndexError {
    ghost from_gives = { λ _ e. e ≡ Memory };

    fn from(_e: AllocFailed<T>) -> IndexError {
        IndexError::Memory
    }
}

/// Why an index of two texts is refused. The foreground's fault goes first. Want of memory is `Memory`, and never inside the other two.
#[derive(Clone, Copy, PartialEq, Eq, Debug, Error)]
pub enum BothError {
    /// The fault of the foreground.
    #[error("{0}")]
    Fore(IndexError),
    /// The fault of the background, whose stanzas count from 1 again. `TooManyStanzas` is here the first stanza that is above `STANZA_LIMIT`
    /// together with all of the foreground's.
    #[error("background: {0}")]
    Back(IndexError),
    /// Memory was refused.
    #[error("out of memory")]
    Memory,
}

impl From<AllocError> for BothError {
    ghost use Rattle.deb_index.specs.declared.error.BothError.TheVariants.{Memory};

    ghost from_gives = { λ _ e. e ≡ Memory };

    fn from(_e: AllocError) -> BothError {
        BothError::Memory
    }
}

pub(crate) fn in_fore(error: IndexError) -> BothError
    ensures value { error ≢ Memory → result ≡ BothError.Fore error }
    ensures memory { error ≡ Memory → result ≡ BothError.Memory }
    ensures bare { IsBare result }
{
    match error {
        IndexError::Memory => BothError::Memory,
        fault => BothError::Fore(fault),
    }
}

pub(crate) fn in_back(error: IndexError) -> BothError
    ensures value { error ≢ Memory → result ≡ BothError.Back error }
    ensures memory { error ≡ Memory → result ≡ BothError.Memory }
    ensures bare { IsBare result }
{
    match error {
        IndexError::Memory => BothError::Memory,
        fault => BothError::Back(fault),
    }
}
