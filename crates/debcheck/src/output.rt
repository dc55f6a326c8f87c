//! The lines of faults, written, and what is told of a run.

ghost use Rattle.std.specs.Prelude.{◌≡◌, Bool, IfOk, OnOk, OnErr, true};
ghost use Rattle.std.specs.Io.KnownBytes.{Appends};
ghost use Rattle.devices.specs.Devices.{AppendsPart};
ghost use Rattle.deb_input.specs.Faults.{told_line};
ghost use Rattle.debcheck.specs.Statuses.{KeepsOther, TellsFront, TellsLine, mark_of};
ghost use Rattle.debcheck.specs.Program.{Refuses, TellsOutcome, is_silent};
ghost use Rattle.debcheck.specs.Run.{written};

use crate::exit_status::status;
use command_line::{LineFault, line_status};
use deb_input::{RunFault, fault_line, memory_line};
use deb_report::Summary;
use devices::{DeviceFault, Sink, write_all};
use std::alloc::Global;

/// Writes the line of a fault, flushes, and tells whether it is that line: where there is no memory for it, it is the line of want of memory.
///
/// `DeviceFault` where the writer failed or took no byte: then a front of such a line was written.
pub fn write_fault<K: Sink>(
    alloc: Global,
    writer: &mut K,
    fault: &RunFault,
) -> Result<bool, DeviceFault>
    ensures line { IfOk result (λ own. Appends (K.contents writer.old) (K.contents writer.new) (told_line own fault.now)) }
    ensures flushed { OnOk result (K.flushed writer.new ≡ true) }
    ensures part { OnErr result ((own : Bool) × AppendsPart (K.contents writer.old) (K.contents writer.new) (told_line own fault.now)) }
    ensures failed { OnErr result (K.failed writer.new ≡ true) }
{
    match fault_line(alloc, fault) {
        Ok(line) => {
            write_all(writer, line.as_slice())?;
            Ok(true)
        }
        Err(_) => {
            write_all(writer, memory_line())?;
            Ok(false)
        }
    }
}

/// Writes what there is to say of a line that gives no configuration, and flushes: help to the output, a refusal's text or the line of want of
/// memory to the errors. Nothing comes to the other device.
///
/// `DeviceFault` where the writer failed or took no byte: then a front of the text was written.
pub fn write_line_fault<K: Sink, E: Sink>(
    output: &mut K,
    errors: &mut E,
    fault: &LineFault,
) -> Result<(), DeviceFault>
    ensures told { OnOk result (TellsLine fault.now (K.contents output.old) (K.contents output.new) (E.contents errors.old) (E.contents errors.new)) }
    ensures flushed { OnOk result (mark_of fault.now (K.flushed output.new) (E.flushed errors.new) ≡ true) }
    ensures front { OnErr result (TellsFront fault.now (K.contents output.old) (K.contents output.new) (E.contents errors.old) (E.contents errors.new)) }
    ensures failed { OnErr result (mark_of fault.now (K.failed output.new) (E.failed errors.new) ≡ true) }
    ensures kept { KeepsOther fault.now (K.contents output.old) (K.contents output.new) (E.contents errors.old) (E.contents errors.new) }
{
    match fault {
        LineFault::Help { text } => write_all(output, text.as_str().as_bytes()),
        LineFault::Refused { text } => write_all(errors, text.as_str().as_bytes()),
        LineFault::Memory => write_all(errors, memory_line()),
    }
}

/// Whether no line is told of a fault: where nobody reads the output any more, as in front of `head`, nobody misses it.
fn is_silent(abandoned: bool, fault: &RunFault) -> bool
    ensures { result ≡ is_silent abandoned fault.now }
{
    match fault {
        RunFault::Write => abandoned,
        _ => false,
    }
}

/// Says what there is to say of a line that gives no configuration. The answer is the exit status.
pub(crate) fn refuse<K: Sink, E: Sink>(
    alloc: Global,
    output: &mut K,
    errors: &mut E,
    fault: &LineFault,
) -> u8
    ensures { Refuses fault.now (written (K.contents output.old) (K.contents output.new) (K.failed output.new) (K.flushed output.new) (K.abandoned output.new))
        (written (E.contents errors.old) (E.contents errors.new) (E.failed errors.new) (E.flushed errors.new) (E.abandoned errors.new)) result }
{
    match write_line_fault(output, errors, fault) {
        Ok(()) => line_status(fault),
        Err(_) => match fault {
            // Help that nobody got is no success: a script has to see it.
            LineFault::Help { .. } => {
                let outcome = Err(RunFault::Write);
                tell_outcome(alloc, errors, &outcome, output.is_abandoned());
                status(&outcome)
            }
            LineFault::Refused { .. } => line_status(fault),
            LineFault::Memory => line_status(fault),
        },
    }
}

/// Tells the fault of a run that has one, unless nobody reads the output any more for which it stands. A line that cannot be written changes no status.
pub(crate) fn tell_outcome<E: Sink>(
    alloc: Global,
    errors: &mut E,
    outcome: &Result<Summary, RunFault>,
    abandoned: bool,
)
    ensures { TellsOutcome abandoned
        (written (E.contents errors.old) (E.contents errors.new) (E.failed errors.new) (E.flushed errors.new) (E.abandoned errors.new)) outcome.now }
{
    match outcome {
        Ok(_) => {}
        Err(fault) => {
            if is_silent(abandoned, fault) {
                return;
            }
            let _ = write_fault(alloc, errors, fault);
        }
    }
}
