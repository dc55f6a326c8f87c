//! The lines of faults that no small input has; those of others stand in `worked_examples` and `program_tests`.

use deb_index::IndexError;
use deb_input::{RunFault, fault_line};
use std::alloc::Global;
use std::process::Abort;

fn has_line(alloc: Global, fault: RunFault, wanted: &str) -> bool {
    match fault_line(alloc, &fault) {
        Ok(line) => line.as_slice() == wanted.as_bytes(),
        Err(_) => false,
    }
}

/// The fault has this line.
fn expect_line(rt: &(impl Abort + AllocGlobal), fault: RunFault, wanted: &str) {
    assert!(rt; has_line(rt.alloc(), fault, wanted), "{wanted}");
}

#[test]
fn faults_of_long_inputs_have_their_lines(rt: HostRuntime) {
    let many = IndexError::TooManyStanzas { stanza: 4_194_305 };
    let line = "debcheck: stanza 4194305: too many stanzas\n";
    expect_line(&rt, RunFault::Index(many), line);
    let line = "debcheck: the index is too long\n";
    expect_line(&rt, RunFault::TooLong, line);
    let line = "debcheck: the background is too long\n";
    expect_line(&rt, RunFault::BackgroundTooLong, line);
    let line = "debcheck: the earlier index is too long\n";
    expect_line(&rt, RunFault::EarlierTooLong, line);
    let line = "debcheck: the names are too many\n";
    expect_line(&rt, RunFault::NamesTooLong, line);
}
