//! What an option says that is refused, and the text that says so.

ghost use Rattle.std.specs.Prelude.{IfOk};
ghost use Rattle.command_line.specs.Line.{IsRefusal};

use crate::fault::LineFault;
use std::alloc::{AllocError, Global};

/// Why what an option says is refused.
#[derive(Drop)]
pub(crate) enum Refusal<'a> {
    /// Its value isn't of its form; what is allowed.
    Value {
        option: &'static str,
        value: &'a str,
        allowed: &'static str,
    },
    /// It isn't taken beside `--successes`; behind that, where it is all the same.
    BesideSuccesses {
        option: &'static str,
        but: &'static str,
    },
}

/// What is said of it.
pub(crate) fn fault_of(alloc: Global, refusal: &Refusal<'_>) -> Result<LineFault, AllocError>
    ensures { IfOk result IsRefusal }
{
    let text = match refusal {
        Refusal::Value {
            option,
            value,
            allowed,
        } => format!(in alloc;
            "error: invalid value {value:?} for '{option}': {allowed}\n\nFor more information, try '--help'.\n"
        )?,
        Refusal::BesideSuccesses { option, but } => format!(in alloc;
            "error: the argument '{option}' cannot be used with '--successes'{but}\n\nFor more information, try '--help'.\n"
        )?,
    };
    Ok(LineFault::Refused { text })
}
