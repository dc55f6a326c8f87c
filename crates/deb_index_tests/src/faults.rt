//! Texts that are refused, with their faults.

use crate::backgrounds::AGAIN;
use crate::reading::{Texts, read};
use crate::side_by_side::WORKERS;
use crate::texts::{VERSIONED, add_copies, copies};
use deb_index::{BothError, IndexError, RelField};
use std::process::Abort;
use std::thread::Threads;

pub static REFUSED: [(&[u8], IndexError); 10] = [
    (b" x", IndexError::BadLine { stanza: 1 }),
    (
        b"Package: a\nVersion: 1\nArchitecture: all\nDepends: b (>=",
        IndexError::BadRelation {
            stanza: 1,
            field: RelField::Depends,
        },
    ),
    (
        b"Package: a!\nArchitecture: all\n",
        IndexError::MissingField { stanza: 1 },
    ),
    (
        b"Package: a\nPackage: b\nno colon here",
        IndexError::BadLine { stanza: 1 },
    ),
    (
        b"Package: a!\nArchitecture: all\n\n x",
        IndexError::MissingField { stanza: 1 },
    ),
    (
        b"Package: a\nVersion: 1\nArchitecture: all\nProvides: v (>= 1)\n",
        IndexError::BadRelation {
            stanza: 1,
            field: RelField::Provides,
        },
    ),
    (
        b"Package: a\nVersion: 1_2\nArchitecture: all\n",
        IndexError::BadVersion { stanza: 1 },
    ),
    (
        b"Package: a!\nVersion: 1\nArchitecture: all\n",
        IndexError::BadName { stanza: 1 },
    ),
    (
        b"Package: a\nVersion: 1\nArchitecture: all\npackage: a\n",
        IndexError::RepeatedField { stanza: 1 },
    ),
    (
        b"Package: a
Version: 1
Architecture: all

Package: b
Version: 1
Architecture: i386

Package: a
Version: 1
Architecture: all
Breaks: b |
",
        IndexError::BadRelation {
            stanza: 3,
            field: RelField::Breaks,
        },
    ),
];

pub fn expect_fault(
    rt: &(impl Abort + Threads + Sync + AllocGlobal),
    texts: Texts,
    fault: BothError,
) {
    let found = read(rt, texts).err();
    assert!(rt; found == Some(fault));
}

fn expect_refused(
    rt: &(impl Abort + Threads + Sync + AllocGlobal),
    text: &[u8],
    fault: IndexError,
) {
    let (fore, back) = (BothError::Fore(fault), BothError::Back(fault));
    expect_fault(rt, Texts::One(text, true), fore);
    expect_fault(rt, Texts::Both(text, b"", true), fore);
    expect_fault(rt, Texts::Both(text, AGAIN, true), fore);
    expect_fault(rt, Texts::Both(text, b" x", true), fore);
    expect_fault(rt, Texts::Both(b"", text, true), back);
    expect_fault(rt, Texts::Both(VERSIONED, text, true), back);
}

#[test]
fn refusals(rt: HostRuntime) {
    for (text, fault) in &REFUSED {
        expect_refused(&rt, *text, *fault);
        expect_fault_by_several(&rt, *text, *fault);
    }
}

/// However many workers there are, the fault of the foreground stands before that of the background.
fn expect_fault_by_several(
    rt: &(impl Abort + Threads + Sync + AllocGlobal),
    text: &[u8],
    fault: IndexError,
) {
    for workers in &WORKERS {
        let texts = Texts::Parted(text, b" x", *workers);
        expect_fault(rt, texts, BothError::Fore(fault));
        let texts = Texts::Parted(VERSIONED, text, *workers);
        expect_fault(rt, texts, BothError::Back(fault));
    }
}

const BAD_NAME: &[u8] = b"Package: a!\nVersion: 1\nArchitecture: all\n\n";

/// Stanzas, of which the one behind so many has a fault, and a later one, too; and the first fault.
pub fn two_faults(rt: &(impl Abort + AllocGlobal), good: u32) -> (Vec<u8>, IndexError) {
    let mut text = copies(rt, good);
    text.extend_from_slice(BAD_NAME).expect(rt, "no memory");
    add_copies(rt, &mut text, 7);
    text.extend_from_slice(b" x\n\n").expect(rt, "no memory");
    add_copies(rt, &mut text, 7);
    let stanza = u64::from(good) + 1;
    (text, IndexError::BadName { stanza })
}

#[test]
fn the_first_of_two_faults(rt: HostRuntime) {
    for good in 0..20u32 {
        let (text, fault) = two_faults(&rt, good);
        expect_fault_by_several(&rt, &text, fault);
    }
}
