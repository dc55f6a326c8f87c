//! What the numbers or the fault of a run tell.

use deb_input::{Input, RunFault, Slip, option_of, slip_in, text_of};
use deb_report::Summary;
use std::alloc::Global;
use std::io::ErrorKind;

fn slip_text(slip: Slip) -> &'static [u8] {
    match slip {
        Slip::NoStanza => b"the index is empty: see whether what writes it failed",
        Slip::OtherArchitectures => {
            b"no stanza is of this architecture or of all: give another by --arch"
        }
        Slip::NothingAsked => {
            b"nothing was asked: the index has no package of this architecture or of all"
        }
    }
}

/// What the numbers of a report tell.
pub fn summary_text(summary: &Summary) -> Option<&'static [u8]> {
    match slip_in(summary.stanzas, summary.skipped, summary.asked) {
        Some(slip) => Some(slip_text(slip)),
        None if summary.stanzas / 2 < summary.skipped => {
            Some(b"most stanzas are of other architectures than this one: give another by --arch")
        }
        None => None,
    }
}

/// What a fault tells that is of no text.
pub fn fault_text(fault: &RunFault, is_folder: bool) -> Option<&'static [u8]> {
    match fault {
        RunFault::Slipped(slip) => Some(slip_text(*slip)),
        RunFault::Read if is_folder => {
            Some(b"standard input is a folder: give a file, debcheck .. < Packages")
        }
        _ => None,
    }
}

/// That the file of an input can't be opened or read, and what keeps it from that. None where its name has what could do more to a terminal than to be
/// shown.
pub fn file_text(alloc: Global, input: Input, name: &[u8], obstacle: ErrorKind) -> Option<Vec<u8>> {
    if name.iter().any(|b| *b < 32 || *b == 127 || *b == 194) {
        return None;
    }
    let reason: &[u8] = match obstacle {
        ErrorKind::NotFound => b": there is no such file",
        ErrorKind::IsADirectory => b": this is a folder",
        ErrorKind::PermissionDenied => b": this file may not be read",
        _ => b": no file that can be read stands there",
    };
    text_of(alloc, &[option_of(input), name, reason])
}
