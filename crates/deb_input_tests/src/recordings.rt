//! Sources whose beginning is kept.

use deb_input::read_all;
use devices::{Recording, Source};
use std::alloc::Global;
use std::process::Abort;
use test_devices::source_of;

/// Whether the front of a text is kept, of which so many bytes come at each read.
fn keeps_front(alloc: Global, text: &[u8], step: usize) -> bool {
    let mut source = Recording::new(source_of(text, step));
    let bytes = read_all(alloc, &mut source, 10_000);
    bytes.is_ok() && source.front() == &text[..text.len().min(4_096)]
}

/// By some numbers of bytes at each read.
fn expect_front(rt: &(impl Abort + AllocGlobal), text: &[u8]) {
    for step in [1, 7, 4_095, 4_096, 4_097, 5_000] {
        assert!(rt; keeps_front(rt.alloc(), text, step), "by {step} bytes");
    }
}

#[test]
fn the_first_bytes_are_kept(rt: HostRuntime) {
    let mut text = [0u8; 5_000];
    for number in 0..5_000usize {
        text[number] = (number % 251) as u8;
    }
    for length in [0, 1, 4_095, 4_096, 4_097, 5_000] {
        expect_front(&rt, &text[..text.len().min(length)]);
    }
}

/// Whether a source keeps what two reads gave, and no more where a third one failed.
fn keeps_what_was_read<S: Source>(source: &mut S) -> bool {
    let mut buffer = [0; 9];
    source.front().is_empty()
        && source.read_some(&mut buffer).is_ok()
        && source.front() == b"Pack".as_slice()
        && source.read_some(&mut buffer).is_ok()
        && source.read_some(&mut buffer).is_err()
        && source.front() == b"Package".as_slice()
}

#[test]
fn a_failed_read_adds_nothing(rt: HostRuntime) {
    let mut inner = source_of(b"Package", 4);
    inner.fails = true;
    assert!(rt; keeps_what_was_read(&mut Recording::new(inner)));
}

#[test]
fn another_source_keeps_none(rt: HostRuntime) {
    let mut source = source_of(b"Package", 4);
    assert!(rt; source.read_some(&mut [0; 9]).is_ok());
    assert!(rt; source.front().is_empty());
}
