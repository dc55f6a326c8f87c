//! The status of each fault, and of a report.

use crate::cases::NOTHING;
use deb_index::IndexError;
use deb_input::{RunFault, Slip};
use deb_report::Summary;
use debcheck::status;
use std::process::Abort;

/// A fault has this status.
fn expect(rt: &impl Abort, fault: RunFault, code: u8) {
    assert!(rt; status(&Err(fault)) == code, "{code}");
}

#[test]
fn faults_have_their_statuses(rt: HostRuntime) {
    let fault = IndexError::BadLine { stanza: 1 };
    expect(&rt, RunFault::Index(fault), 65);
    expect(&rt, RunFault::Background(fault), 65);
    expect(&rt, RunFault::Earlier(fault), 65);
    expect(&rt, RunFault::Slipped(Slip::NoStanza), 65);
    expect(&rt, RunFault::BadNameLine { line: 30 }, 65);
    expect(&rt, RunFault::Read, 67);
    expect(&rt, RunFault::TooLong, 67);
    expect(&rt, RunFault::BackgroundRead, 67);
    expect(&rt, RunFault::BackgroundTooLong, 67);
    expect(&rt, RunFault::EarlierRead, 67);
    expect(&rt, RunFault::EarlierTooLong, 67);
    expect(&rt, RunFault::NamesRead, 67);
    expect(&rt, RunFault::NamesTooLong, 67);
    expect(&rt, RunFault::Write, 68);
    expect(&rt, RunFault::Memory, 69);
}

#[test]
fn status_tells_whether_some_are_broken(rt: HostRuntime) {
    for (broken, newly_broken, wanted) in [
        (0, None, 0),
        (2, None, 1),
        (2, Some(0), 0),
        (2, Some(1), 1),
        (2, Some(2), 1),
    ] {
        let summary = Summary {
            broken,
            newly_broken,
            stanzas: 3,
            asked: 3,
            ..NOTHING
        };
        assert!(rt; status(&Ok(summary)) == wanted);
    }
}
