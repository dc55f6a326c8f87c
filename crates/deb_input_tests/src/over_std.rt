//! Devices over readers of std that fail: how each failure is answered, and in how many calls.

use crate::counted::{Counted, reader_of};
use crate::whole_texts::told_by;
use deb_input::read_all;
use devices::{Recording, Std};
use std::alloc::Global;
use std::io::{ErrorKind, IsTerminal};
use test_devices::Screen;

/// Whether reading to the end comes to these bytes, or these words for the fault, in so many reads.
fn reads(alloc: Global, mut inner: Counted<'_>, wanted: &[u8], calls: u32) -> bool {
    let outcome = read_all(alloc, &mut Std::new(&mut inner), 100);
    told_by(&outcome) == wanted && inner.reads == calls
}

const TEXT: &[u8] = b"sixteen letters.";

/// Sixteen bytes come in one read, and one more tells the end; by five bytes a call they come in four.
#[test]
fn a_text_is_read_in_few_reads(rt: HostRuntime) {
    let cases: [(&[u8], usize, u32); 3] = [(TEXT, 1000, 2), (TEXT, 5, 5), (b"", 5, 1)];
    for (text, step, calls) in cases {
        let inner = reader_of(text, step, 0, ErrorKind::Other);
        assert!(rt; reads(rt.alloc(), inner, text, calls));
    }
}

/// An interrupted read is one that failed. Nothing is read after it.
#[test]
fn each_read_fails_in_turn(rt: HostRuntime) {
    for kind in [ErrorKind::Other, ErrorKind::Interrupted] {
        for call in 1..=5 {
            let inner = reader_of(TEXT, 5, call, kind);
            assert!(rt; reads(rt.alloc(), inner, b"failed", call));
        }
    }
}

/// A device is a terminal where what it stands over is one, also where its beginning is kept.
#[test]
fn a_device_over_a_terminal_says_so(rt: HostRuntime) {
    for is_terminal in [false, true] {
        let screen = Screen::new(is_terminal, b"");
        assert!(rt; Std::new(&screen).is_terminal() == is_terminal);
        assert!(rt; Recording::new(Std::new(&screen)).is_terminal() == is_terminal);
    }
}
