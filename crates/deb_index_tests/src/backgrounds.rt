//! A foreground and a background.

use crate::reading::Texts;
use crate::showing::{Case, Part, expect_each, expect_shown, shown};
use crate::texts::{SPELLED, TWICE, VERSIONED};
use std::process::Abort;
use std::thread::Threads;

pub const NEEDING: &[u8] = b"Package: a
Version: 1
Architecture: all
Depends: b
";

pub const NEEDED: &[u8] = b"Package: b
Version: 1
Architecture: all
Depends: c

Package: b
Version: 2
Architecture: all
";

const ONE: &[u8] = b"Package: a\nVersion: 1\nArchitecture: amd64";

pub const AGAIN: &[u8] = b"Package: a
Version: 1
Architecture: all

Package: zz
Version: 1
Architecture: all
";

const CONFLICTING: &str = "x 1 {Conflicts: base}";

const BASE: &str = "base 1 {Essential: yes}";

const LAST: &[u8] = b"Package: last\nVersion: 1\nArchitecture: all\nDepends: v\n";

/// What is seen of `NEEDING` over `NEEDED`: behind the foreground's package those of the background that it may use.
pub const USED: [Part; 5] = [
    Part::Counts,
    Part::Foreground,
    Part::Packages,
    Part::Name("b"),
    Part::AnswerRows,
];

pub const USED_SHOWN: &str = "packages 3, stanzas 3, skipped 0, duplicates 0
foreground 1
0: a 1 all, name 0, versions [0], marked false
1: b 1 all, name 1, versions [1, 2], marked false
2: b 2 all, name 1, versions [1, 2], marked false
b: number Some(1), places [1, 2], provided []
need 0: [1, 2]
need 1: []
";

const COUNTS: &[Part] = &[Part::Counts, Part::Foreground];

const ESSENTIALS: &[Part] = &[Part::EssentialNames, Part::Constraints];

const LASTS: &[Part] = &[Part::Counts, Part::Name("last"), Part::AnswerRows];

static CASES: [Case; 13] = [
    Case {
        name: "a background that is used",
        texts: Texts::Both(NEEDING, NEEDED, true),
        parts: &USED,
        wanted: USED_SHOWN,
    },
    Case {
        name: "a duplicate in the background",
        texts: Texts::Both(ONE, AGAIN, true),
        parts: &[
            Part::Counts,
            Part::Foreground,
            Part::Packages,
            Part::Names,
            Part::Name("a"),
            Part::Name("zz"),
        ],
        wanted: "packages 2, stanzas 3, skipped 0, duplicates 1
foreground 1
0: a 1 amd64, name 0, versions [0], marked false
1: zz 1 all, name 1, versions [1], marked false
name 0: a, places [0]
name 1: zz, places [1]
a: number Some(0), places [0], provided []
zz: number Some(1), places [1], provided []
",
    },
    Case {
        name: "counts of no text",
        texts: Texts::Both(b"", b"", true),
        parts: COUNTS,
        wanted: "packages 0, stanzas 0, skipped 0, duplicates 0\nforeground 0\n",
    },
    Case {
        name: "counts without a background",
        texts: Texts::Both(ONE, b"", true),
        parts: COUNTS,
        wanted: "packages 1, stanzas 1, skipped 0, duplicates 0\nforeground 1\n",
    },
    Case {
        name: "counts without a foreground",
        texts: Texts::Both(b"", AGAIN, true),
        parts: COUNTS,
        wanted: "packages 2, stanzas 2, skipped 0, duplicates 0\nforeground 0\n",
    },
    Case {
        name: "counts with a duplicate",
        texts: Texts::Both(AGAIN, ONE, true),
        parts: COUNTS,
        wanted: "packages 2, stanzas 3, skipped 0, duplicates 1\nforeground 2\n",
    },
    Case {
        name: "counts with a duplicate in the background",
        texts: Texts::Both(ONE, SPELLED, true),
        parts: COUNTS,
        wanted: "packages 3, stanzas 5, skipped 1, duplicates 1\nforeground 1\n",
    },
    Case {
        name: "counts of one text twice",
        texts: Texts::Both(SPELLED, SPELLED, true),
        parts: COUNTS,
        wanted: "packages 2, stanzas 8, skipped 2, duplicates 4\nforeground 2\n",
    },
    Case {
        name: "counts of two texts",
        texts: Texts::Both(VERSIONED, TWICE, true),
        parts: COUNTS,
        wanted: "packages 6, stanzas 6, skipped 0, duplicates 0\nforeground 3\n",
    },
    Case {
        name: "an essential name of the background",
        texts: Texts::Short(CONFLICTING, BASE, true),
        parts: ESSENTIALS,
        wanted: "essential [1]\n[Essential(1), Apart(0, 0), Only(0), Only(1)]\n",
    },
    Case {
        name: "an essential name of the background that does not count",
        texts: Texts::Short(CONFLICTING, BASE, false),
        parts: ESSENTIALS,
        wanted: "essential []\n[Apart(0, 0), Only(0), Only(1)]\n",
    },
    Case {
        name: "providers of the foreground",
        texts: Texts::Both(TWICE, LAST, true),
        parts: LASTS,
        wanted: "packages 4, stanzas 4, skipped 0, duplicates 0
last: number Some(2), places [3], provided []
need 3: [0, 1, 2]
",
    },
    Case {
        name: "providers of the background",
        texts: Texts::Both(LAST, TWICE, true),
        parts: LASTS,
        wanted: "packages 4, stanzas 4, skipped 0, duplicates 0
last: number Some(0), places [0], provided []
need 0: [1, 2, 3]
",
    },
];

#[test]
fn texts_with_backgrounds(rt: HostRuntime) {
    expect_each(&rt, &CASES);
}

/// What indexes of the same stanzas have in common.
static COMMON: [Part; 4] = [Part::Counts, Part::Packages, Part::Names, Part::Constraints];

/// Wherever a text is cut between two stanzas, its parts have the index of the whole.
fn expect_cuts(rt: &(impl Abort + Threads + Sync + AllocGlobal), text: &[u8]) {
    let whole = shown(rt, Texts::One(text, true), &COMMON).expect(rt, "a good text");
    for at in 0..text.len() + 1 {
        let (front, back) = text.split_at(at);
        let is_between = front.ends_with(b"\n") && back.starts_with(b"\n");
        if is_between || front.is_empty() || back.is_empty() {
            let texts = Texts::Both(front, back, true);
            expect_shown(rt, "cut in two", texts, &COMMON, whole.as_str());
        }
    }
}

#[test]
fn cut_in_two(rt: HostRuntime) {
    for text in [VERSIONED, SPELLED, TWICE] {
        expect_cuts(&rt, text);
    }
}
