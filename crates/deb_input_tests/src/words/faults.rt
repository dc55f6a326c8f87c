//! What a command line has to say that is no run: help, the version, a refusal.

use command_line::{LineFault, line_status};
use std::alloc::{AllocError, Global};

/// The status of a fault, and its text for the output or for the errors.
pub fn fault_in_words(alloc: Global, fault: &LineFault) -> Result<String, AllocError> {
    let (output, errors) = match fault {
        LineFault::Help { text } => (text.as_str(), ""),
        LineFault::Refused { text } => ("", text.as_str()),
        LineFault::Memory => return Err(AllocError),
    };
    let status = line_status(fault);
    format!(in alloc; "status {status}, output: {output}, errors: {errors}")
}
