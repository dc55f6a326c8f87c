//! Texts that come in pieces.

use crate::backgrounds::{NEEDED, NEEDING, USED, USED_SHOWN};
use crate::faults::{REFUSED, expect_fault, two_faults};
use crate::reading::{Texts, in_pieces, read};
use crate::showing::{Case, expect_each, expect_shown, shown};
use crate::side_by_side::SEEN;
use crate::texts::{SPELLED, TWICE, VERSIONED, copies};
use deb_index::BothError;
use std::process::Abort;
use std::thread::Threads;

/// One worker, two, and more than a piece has parts.
static WORKERS: [u32; 3] = [1, 2, 64];

/// With each of the numbers of workers, this is seen.
fn expect_seen<'x>(
    rt: &(impl Abort + Threads + Sync + AllocGlobal),
    pieces: &'x [&'x [u8]],
    background: &'x [u8],
    wanted: &str,
) {
    for workers in &WORKERS {
        expect_shown(
            rt,
            "in pieces",
            Texts::Pieces(pieces, background, *workers),
            &SEEN,
            wanted,
        );
    }
}

/// Wherever a text is cut, what is seen is what one call on the whole of it sees.
fn expect_same(rt: &(impl Abort + Threads + Sync + AllocGlobal), text: &[u8], background: &[u8]) {
    let wanted = shown(rt, Texts::Both(text, background, true), &SEEN).expect(rt, "good texts");
    for least in 0..text.len() + 1 {
        let pieces = in_pieces(rt, text, least);
        expect_seen(rt, &pieces, background, wanted.as_str());
    }
}

#[test]
fn cut_at_each_empty_line(rt: HostRuntime) {
    for text in [VERSIONED, SPELLED, TWICE] {
        expect_same(&rt, text, b"");
        expect_same(&rt, text, VERSIONED);
    }
}

static CASES: [Case; 2] = [
    Case {
        name: "a background behind pieces",
        texts: Texts::Pieces(&[b"\n\n", NEEDING], NEEDED, 1),
        parts: &USED,
        wanted: USED_SHOWN,
    },
    Case {
        name: "no piece",
        texts: Texts::Pieces(&[], b"", 1),
        parts: &SEEN,
        wanted: "packages 0, stanzas 0, skipped 0, duplicates 0\nforeground 0\n",
    },
];

const DUPLICATES: &str = "packages 1, stanzas 40, skipped 0, duplicates 39
foreground 1
0: a 1 all, name 0, versions [0], marked false
name 0: a, places [0]
";

#[test]
fn given_pieces(rt: HostRuntime) {
    expect_each(&rt, &CASES);
}

#[test]
fn duplicates_in_all_pieces(rt: HostRuntime) {
    let text = copies(&rt, 20);
    let pieces = in_pieces(&rt, &text, 0);
    assert!(rt; pieces.len() == 20);
    expect_seen(&rt, &pieces, &text, DUPLICATES);
}

/// With each of the numbers of workers, this is the fault.
fn expect_seen_fault<'x>(
    rt: &(impl Abort + Threads + Sync + AllocGlobal),
    pieces: &'x [&'x [u8]],
    fault: BothError,
) {
    for workers in &WORKERS {
        expect_fault(rt, Texts::Pieces(pieces, b" x", *workers), fault);
    }
}

/// Wherever a text is cut, its fault is what one call on the whole of it tells.
fn expect_fault_in_pieces(
    rt: &(impl Abort + Threads + Sync + AllocGlobal),
    text: &[u8],
    fault: BothError,
) {
    for least in 0..text.len() + 1 {
        let pieces = in_pieces(rt, text, least);
        expect_seen_fault(rt, &pieces, fault);
    }
}

fn fault_of(rt: &(impl Threads + Sync + AllocGlobal), text: &[u8]) -> Option<BothError> {
    read(rt, Texts::Parted(text, b"", 1)).err()
}

/// A refused text behind good stanzas, in pieces.
fn expect_later_fault(rt: &(impl Abort + Threads + Sync + AllocGlobal), refused: &[u8]) {
    let mut text = copies(rt, 2);
    text.extend_from_slice(refused).expect(rt, "no memory");
    let fault = fault_of(rt, &text).expect(rt, "a bad text");
    expect_fault_in_pieces(rt, &text, fault);
}

#[test]
fn faults_in_later_pieces(rt: HostRuntime) {
    for (refused, _) in &REFUSED {
        expect_later_fault(&rt, *refused);
    }
}

#[test]
fn faults_of_the_background(rt: HostRuntime) {
    let pieces = in_pieces(&rt, VERSIONED, 0);
    for (refused, fault) in &REFUSED {
        expect_fault(
            &rt,
            Texts::Pieces(&pieces, *refused, 3),
            BothError::Back(*fault),
        );
    }
}

#[test]
fn the_first_of_two_faults(rt: HostRuntime) {
    for good in 0..4u32 {
        let (text, fault) = two_faults(&rt, good);
        expect_fault_in_pieces(&rt, &text, BothError::Fore(fault));
    }
}
