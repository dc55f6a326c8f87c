//! As many stanzas as may be, and one more.

use crate::faults::expect_fault;
use crate::reading::Texts;
use crate::showing::{Part, expect_shown};
use crate::texts::{COPY, copies};
use deb_index::{BothError, IndexError, STANZA_LIMIT};

const NEXT: &[u8] = b"Package: b\nVersion: 1\nArchitecture: all\n";

const NEXT_TWO: &[u8] =
    b"Package: b\nVersion: 1\nArchitecture: all\n\nPackage: c\nVersion: 1\nArchitecture: all\n";

#[test]
fn as_many_stanzas_as_may_be(rt: HostRuntime) {
    let mut text = copies(&rt, STANZA_LIMIT - 1);
    expect_shown(
        &rt,
        "in both",
        Texts::Both(&text, NEXT, true),
        &[Part::Counts, Part::Foreground],
        "packages 2, stanzas 4194304, skipped 0, duplicates 4194302\nforeground 1\n",
    );
    text.extend_from_slice(COPY).expect(&rt, "no memory");
    expect_shown(
        &rt,
        "in one",
        Texts::One(&text, true),
        &[Part::Counts],
        "packages 1, stanzas 4194304, skipped 0, duplicates 4194303\n",
    );
}

const BEYOND: BothError = BothError::Fore(IndexError::TooManyStanzas { stanza: 4_194_305 });

#[test]
fn a_stanza_too_many(rt: HostRuntime) {
    let mut text = copies(&rt, STANZA_LIMIT);
    let len = text.len();
    for beyond in [COPY, b"no stanza"] {
        text.truncate(len);
        text.extend_from_slice(beyond).expect(&rt, "no memory");
        expect_fault(&rt, Texts::One(&text, true), BEYOND);
    }
}

fn too_many_behind(stanza: u64) -> BothError {
    BothError::Back(IndexError::TooManyStanzas { stanza })
}

#[test]
fn a_stanza_too_many_in_the_background(rt: HostRuntime) {
    let mut text = copies(&rt, STANZA_LIMIT - 1);
    expect_fault(&rt, Texts::Both(&text, NEXT_TWO, true), too_many_behind(2));
    text.extend_from_slice(COPY).expect(&rt, "no memory");
    expect_fault(&rt, Texts::Both(&text, NEXT, true), too_many_behind(1));
}

#[test]
fn a_stanza_too_many_in_pieces(rt: HostRuntime) {
    let text = copies(&rt, STANZA_LIMIT / 4);
    let piece = text.as_slice();
    let pieces = [piece, piece, piece, piece, COPY];
    expect_fault(&rt, Texts::Pieces(&pieces, b"", 3), BEYOND);
}
