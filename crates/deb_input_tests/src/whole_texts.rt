//! Reading to the end.

use deb_input::{RunFault, read_all};
use std::alloc::Global;
use test_devices::{Feed, source_of};

/// The bytes that were read, or words for the fault.
pub fn told_by(outcome: &Result<Vec<u8>, RunFault>) -> &[u8] {
    match outcome {
        Ok(bytes) => bytes.as_slice(),
        Err(RunFault::TooLong) => b"too long",
        Err(RunFault::Read) => b"failed",
        Err(RunFault::Memory) => b"no memory",
        Err(_) => b"no fault of reading",
    }
}

/// Whether reading to the end with this limit comes to these bytes, or these words for the fault.
fn reads(alloc: Global, reader: &mut Feed<'_>, limit: u8, wanted: &[u8]) -> bool {
    let outcome = read_all(alloc, reader, usize::from(limit));
    told_by(&outcome) == wanted
}

#[test]
fn reads_within_a_limit(rt: HostRuntime) {
    for step in [1, 2, 1000] {
        let mut three = source_of(b"abc", step);
        assert!(rt; reads(rt.alloc(), &mut three, 3, b"abc") && three.reads <= 4);
        assert!(rt; reads(rt.alloc(), &mut source_of(b"abcd", step), 3, b"too long"));
    }
}

#[test]
fn reads_nothing_or_fails(rt: HostRuntime) {
    assert!(rt; reads(rt.alloc(), &mut source_of(b"", 1), 0, b""));
    let mut broken = source_of(b"abc", 1);
    broken.fails = true;
    assert!(rt; reads(rt.alloc(), &mut broken, 3, b"failed") && broken.reads == 4);
}
