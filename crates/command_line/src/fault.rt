//! Why a command line gives no configuration, and the exit status that says so.

ghost use Rattle.std.specs.Prelude.{◌≡◌};
ghost use Rattle.command_line.specs.Line.{line_status_of};
ghost use Rattle.command_line.specs.declared.fault.LineFault.TheVariants.{Memory};

use std::alloc::{AllocError, AllocFailed};
use thiserror::Error;

/// Why a command line gives no configuration.
#[derive(Debug, Drop, Error)]
pub enum LineFault {
    /// A word or a value isn't of the form that the program takes. The text for standard error says what is wrong and what is allowed.
    #[error("the command line is refused")]
    Refused { text: String },
    /// Help or the version was asked for: the text for standard output.
    #[error("help or the version was asked for")]
    Help { text: String },
    /// Some growth was refused.
    #[error("out of memory")]
    Memory,
}

impl From<AllocError> for LineFault {
    ghost from_gives = { λ _ e. e ≡ Memory };

    fn from(_e: AllocError) -> LineFault {
        LineFault::Memory
    }
}

impl<T: Drop> From<AllocFailed<T>> for LineFault {
    ghost from_gives = { λ _ e. e ≡ Memory };

    fn from(_e: AllocFailed<T>) -> LineFault {
        LineFault::Memory
    }
}

/// The exit status where a command line gives no configuration: 64 where it is refused, 0 for help and the version, 69 for want of memory.
pub fn line_status(fault: &LineFault) -> u8
    ensures { result ≡ line_status_of fault.now }
{
    match fault {
        LineFault::Refused { .. } => 64,
        LineFault::Help { .. } => 0,
        LineFault::Memory => 69,
    }
}
