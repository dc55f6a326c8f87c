//! Why a run fails, and what is said of it.

ghost use Rattle.std.specs.Prelude.{◌≡◌, ◌++◌, IfOk, OnOk, decimal};
ghost use Rattle.deb_input.specs.Faults.{fault_line, fault_text, index_fault_text, slip_text, stanza_text};
ghost use Rattle.deb_input.specs.declared.fault.RunFault.TheVariants.{Memory};

use crate::strict::Slip;
use deb_index::IndexError;
use std::alloc::{AllocError, AllocFailed, Global};
use thiserror::Error;

/// Why there is no report, or no whole one. Which of several causes is told stands in docs/formats.md.
#[derive(Debug, Drop, Error)]
pub enum RunFault {
    /// The reader failed.
    #[error("cannot read the index")]
    Read,
    /// The text has more than `deb_index::TEXT_LIMIT` bytes.
    #[error("the index is too long")]
    TooLong,
    /// The reader of the background failed.
    #[error("cannot read the background")]
    BackgroundRead,
    /// The background has more than `deb_index::TEXT_LIMIT` bytes.
    #[error("the background is too long")]
    BackgroundTooLong,
    /// The reader of the earlier index failed.
    #[error("cannot read the earlier index")]
    EarlierRead,
    /// The earlier index has more than `deb_index::TEXT_LIMIT` bytes.
    #[error("the earlier index is too long")]
    EarlierTooLong,
    /// The file of the names that are asked can't be opened, or its reader failed.
    #[error("cannot read the names")]
    NamesRead,
    /// It has more than `deb_index::TEXT_LIMIT` bytes.
    #[error("the names are too many")]
    NamesTooLong,
    /// A line of it is no package name: the first such line, counted from 1.
    #[error("names: line {line}: bad name")]
    BadNameLine { line: u64 },
    /// A stanza of the index has a fault: the first that has one. Never want of memory, which is `Memory`.
    #[error("{0}")]
    Index(IndexError),
    /// A stanza of the background has a fault: the first that has one, counted from 1 in the background. Never want of memory.
    #[error("background: {0}")]
    Background(IndexError),
    /// A stanza of the earlier index has a fault: the first that has one. Never want of memory.
    #[error("earlier index: {0}")]
    Earlier(IndexError),
    /// No package of the index has this name, whatever the background has: the first such name of those that were asked.
    #[error("unknown package")]
    UnknownAsked { name: Vec<u8> },
    /// Nothing is asked of the index, or nothing that is in it, and the run is strict.
    #[error("nothing is asked of the index")]
    Slipped(Slip),
    /// Some growth was refused.
    #[error("out of memory")]
    Memory,
    /// The writer failed, or took no byte: a front of the report was written.
    #[error("cannot write the report")]
    Write,
}

impl From<AllocError> for RunFault {
    ghost from_gives = { λ _ e. e ≡ Memory };

    fn from(_e: AllocError) -> RunFault {
        RunFault::Memory
    }
}

impl<T: Drop> From<AllocFailed<T>> for RunFault {
    ghost from_gives = { λ _ e. e ≡ Memory };

    fn from(_e: AllocFailed<T>) -> RunFault {
        RunFault::Memory
    }
}

/// A number in decimal digits.
fn push_number(alloc: Global, out: &mut Vec<u8>, number: u64) -> Result<(), AllocError>
    ensures { OnOk result (out.new.items ≡ out.old.items ++ decimal number) }
{
    let digits = number.to_string(alloc)?;
    out.extend_from_slice(digits.as_str().as_bytes())
}

/// What is said of a stanza.
#[tactic(auto, unfolding(crate::specs::Faults::stanza_text))]
fn push_stanza(alloc: Global, out: &mut Vec<u8>, stanza: u64, what: &[u8]) -> Result<(), AllocError>
    ensures { OnOk result (out.new.items ≡ out.old.items ++ stanza_text stanza what.now) }
{
    out.extend_from_slice(b"stanza ")?;
    push_number(alloc, out, stanza)?;
    out.extend_from_slice(b": ")?;
    out.extend_from_slice(what)
}

#[tactic(auto, unfolding(crate::specs::Faults::index_fault_text))]
fn push_index_fault(alloc: Global, out: &mut Vec<u8>, fault: &IndexError) -> Result<(), AllocError>
    ensures { OnOk result (out.new.items ≡ out.old.items ++ index_fault_text fault.now) }
{
    match fault {
        IndexError::BadLine { stanza } => push_stanza(alloc, out, *stanza, b"bad line"),
        IndexError::RepeatedField { stanza } => push_stanza(alloc, out, *stanza, b"repeated field"),
        IndexError::MissingField { stanza } => push_stanza(alloc, out, *stanza, b"missing field"),
        IndexError::BadName { stanza } => push_stanza(alloc, out, *stanza, b"bad name"),
        IndexError::BadVersion { stanza } => push_stanza(alloc, out, *stanza, b"bad version"),
        IndexError::BadRelation { stanza, field } => {
            push_stanza(alloc, out, *stanza, b"bad relation in ")?;
            out.extend_from_slice(field.name().as_bytes())?;
            Ok(())
        }
        IndexError::TooManyStanzas { stanza } => {
            push_stanza(alloc, out, *stanza, b"too many stanzas")
        }
        IndexError::Memory => out.extend_from_slice(b"out of memory"),
    }
}

#[tactic(auto, unfolding(crate::specs::Faults::slip_text))]
fn slip_text(slip: Slip) -> &'static [u8]
    ensures { result.now ≡ slip_text slip }
{
    match slip {
        Slip::NoStanza => b"the index is empty",
        Slip::OtherArchitectures => b"no stanza is of this architecture or of all",
        Slip::NothingAsked => b"nothing is asked",
    }
}

/// What is said of a fault.
#[tactic(auto, unfolding(crate::specs::Faults::fault_text))]
fn push_fault(alloc: Global, out: &mut Vec<u8>, fault: &RunFault) -> Result<(), AllocError>
    ensures { OnOk result (out.new.items ≡ out.old.items ++ fault_text fault.now) }
{
    match fault {
        RunFault::Read => out.extend_from_slice(b"cannot read the index"),
        RunFault::TooLong => out.extend_from_slice(b"the index is too long"),
        RunFault::BackgroundRead => out.extend_from_slice(b"cannot read the background"),
        RunFault::BackgroundTooLong => out.extend_from_slice(b"the background is too long"),
        RunFault::EarlierRead => out.extend_from_slice(b"cannot read the earlier index"),
        RunFault::EarlierTooLong => out.extend_from_slice(b"the earlier index is too long"),
        RunFault::NamesRead => out.extend_from_slice(b"cannot read the names"),
        RunFault::NamesTooLong => out.extend_from_slice(b"the names are too many"),
        RunFault::BadNameLine { line } => {
            out.extend_from_slice(b"names: line ")?;
            push_number(alloc, out, *line)?;
            out.extend_from_slice(b": bad name")
        }
        RunFault::Index(fault) => push_index_fault(alloc, out, fault),
        RunFault::Background(fault) => {
            out.extend_from_slice(b"background: ")?;
            push_index_fault(alloc, out, fault)
        }
        RunFault::Earlier(fault) => {
            out.extend_from_slice(b"earlier index: ")?;
            push_index_fault(alloc, out, fault)
        }
        RunFault::UnknownAsked { name } => {
            out.extend_from_slice(b"unknown package ")?;
            out.extend_from_slice(name.as_slice())
        }
        RunFault::Slipped(slip) => out.extend_from_slice(slip_text(*slip)),
        RunFault::Memory => out.extend_from_slice(b"out of memory"),
        RunFault::Write => out.extend_from_slice(b"cannot write the report"),
    }
}

/// The line of want of memory for standard error, which takes none.
#[tactic(auto, unfolding(crate::specs::Faults::fault_line, crate::specs::Faults::fault_text))]
pub fn memory_line() -> &'static [u8]
    ensures { result.now ≡ fault_line Memory }
{
    b"debcheck: out of memory\n"
}

/// The line of a fault for standard error: `debcheck: `, what it is, and LF. Stanzas count from 1 in each text.
///
/// `AllocError` where there is no memory for it.
#[tactic(auto, unfolding(crate::specs::Faults::fault_line))]
pub fn fault_line(alloc: Global, fault: &RunFault) -> Result<Vec<u8>, AllocError>
    ensures { IfOk result (λ line. line.items ≡ fault_line fault.now) }
{
    let mut line = Vec::from_slice(alloc, b"debcheck: ")?;
    push_fault(alloc, &mut line, fault)?;
    line.push(b'\n')?;
    Ok(line)
}
