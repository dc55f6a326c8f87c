//! What runs and their faults tell.

use crate::hints::text::expect_text;
use deb_input::{Input, RunFault, Slip};
use deb_report::Summary;
use debcheck::{fault_text, file_text, summary_text};
use std::io::ErrorKind;

const EMPTY: &str = "the index is empty: see whether what writes it failed";

const ELSEWHERE: &str = "no stanza is of this architecture or of all: give another by --arch";

const UNASKED: &str = "nothing was asked: the index has no package of this architecture or of all";

const MOST: &str = "most stanzas are of other architectures than this one: give another by --arch";

/// How many stanzas there are, are skipped and are asked; and what is told.
static RUNS: &[(u32, u32, u32, &str)] = &[
    (0, 0, 0, EMPTY),
    (7, 7, 0, ELSEWHERE),
    (7, 6, 0, UNASKED),
    (7, 4, 1, MOST),
    (7, 3, 1, ""),
    (8, 4, 4, ""),
    (1, 0, 1, ""),
    (u32::MAX, u32::MAX - 1, 1, MOST),
];

#[test]
fn of_numbers(rt: HostRuntime) {
    for (stanzas, skipped, asked, wanted) in RUNS {
        let summary = Summary {
            stanzas: *stanzas,
            skipped: *skipped,
            duplicates: 0,
            background: 0,
            asked: *asked,
            broken: 0,
            newly_broken: None,
        };
        let text = summary_text(&summary).unwrap_or(b"");
        assert!(rt; text == wanted.as_bytes(), "another text than {wanted:?}");
    }
}

#[test]
fn of_faults(rt: HostRuntime) {
    let slipped = fault_text(&RunFault::Slipped(Slip::NothingAsked), false);
    assert!(rt; slipped == Some(UNASKED.as_bytes()));
    let folder = fault_text(&RunFault::Read, true);
    let wanted = "standard input is a folder: give a file, debcheck .. < Packages";
    assert!(rt; folder == Some(wanted.as_bytes()));
    assert!(rt; fault_text(&RunFault::Read, false).is_none());
    assert!(rt; fault_text(&RunFault::Write, true).is_none());
}

static FILES: &[(Input, &str, ErrorKind, &str)] = &[
    (
        Input::Background,
        "main/Packages",
        ErrorKind::NotFound,
        "--bg main/Packages: there is no such file",
    ),
    (
        Input::Earlier,
        "Änderung ~ 1",
        ErrorKind::IsADirectory,
        "--since Änderung ~ 1: this is a folder",
    ),
    (
        Input::Names,
        "names of today",
        ErrorKind::PermissionDenied,
        "--checkonly @names of today: this file may not be read",
    ),
    (
        Input::Names,
        "a",
        ErrorKind::Other,
        "--checkonly @a: no file that can be read stands there",
    ),
    (Input::Names, "a\tb", ErrorKind::Other, ""),
    (Input::Background, "\x1b[2J", ErrorKind::Other, ""),
    (Input::Background, "a\u{85}", ErrorKind::Other, ""),
];

#[test]
fn of_files(rt: HostRuntime) {
    for (input, name, obstacle, wanted) in FILES {
        let text = file_text(rt.alloc(), *input, name.as_bytes(), *obstacle);
        expect_text(&rt, *name, text, *wanted);
    }
}
