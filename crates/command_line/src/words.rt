//! The words of a command line.

ghost use Rattle.std.specs.Prelude.{IfErr, false};
ghost use Rattle.command_line.specs.Line.{RefusesUnless};

use crate::fault::LineFault;
use std::env::Env;
use std::io::ErrorKind;

/// The words after the program's name. Words that are no UTF-8 are refused.
pub fn words_of<R: Env + AllocGlobal>(rt: &R) -> Result<Vec<String>, LineFault>
    ensures { IfErr result (RefusesUnless false) }
{
    match std::env::args(rt) {
        Ok(mut words) => {
            let _ = words.next();
            Ok(words.collect(rt.alloc())?)
        }
        Err(error) if error.kind() == ErrorKind::OutOfMemory => Err(LineFault::Memory),
        Err(_) => {
            let text = "error: a word of the command line isn't UTF-8\n";
            Err(LineFault::Refused {
                text: String::from_str(rt.alloc(), text)?,
            })
        }
    }
}
