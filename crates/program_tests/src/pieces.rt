//! Programs whose index and earlier index are read in pieces of few bytes: they come to the same as in one piece.

use crate::runs::{Case, expect_of};
use debcheck::OpenFault;
use std::process::Abort;
use std::thread::Threads;
use std::time::Clock;
use test_devices::{Cabinet, source_of};
use test_texts::report_of;

/// The first stanza has an essential name, the third is of another architecture, the fourth repeats the second, and the last depends on the first.
const INDEX: &[u8] = b"Package: base
Version: 1
Architecture: all
Essential: yes

Package: b
Version: 2
Architecture: all
Conflicts: base

Package: c
Version: 1
Architecture: i386

Package: b
Version: 2
Architecture: all
Depends: gone

Package: d
Version: 1
Architecture: all
Depends: base, gone
";

const REPORT: &str = "b 2: broken {essential: base / conflict: b 2 Conflicts: base}
d 1: broken {missing: d 1 Depends: gone}
stanzas 5, skipped 1, duplicates 1, asked 3, broken 2";

/// The second package of the earlier index isn't broken in it, and its third is gone.
const EARLIER: &[u8] = b"Package: base
Version: 1
Architecture: all
Essential: yes

Package: d
Version: 1
Architecture: all

Package: e
Version: 1
Architecture: all
Depends: gone
";

const NEWS: &str = "b 2: broken
d 1: broken
stanzas 5, skipped 1, duplicates 1, asked 3, broken 2, newly-broken 2, mended {}, gone {e 1}";

/// The third stanza has a fault, and so has the fifth.
const FAULTY: &[u8] = b"Package: a
Version: 1
Architecture: all

Package: b
Version: 1
Architecture: all

Package: c
Version: 1_2
Architecture: all

Package: d
Version: 1
Architecture: all

Package: e
";

/// Words, an index, the status, and what is told.
static CASES: [(&str, &[u8], u8, &str); 4] = [
    ("|--arch|amd64|--failures|--explain", INDEX, 1, REPORT),
    ("|--arch|amd64|--since|earlier", INDEX, 1, NEWS),
    (
        "|--arch|amd64",
        FAULTY,
        65,
        "debcheck: stanza 3: bad version",
    ),
    (
        "|--arch|amd64|--since|faulty",
        INDEX,
        65,
        "debcheck: earlier index: stanza 3: bad version",
    ),
];

/// Both texts are read in pieces of so many bytes.
fn expect_pieces(
    rt: &(impl Abort + Clock + Threads + Sync + AllocGlobal),
    case: &Case,
    piece: usize,
) {
    let files = [("earlier", EARLIER), ("faulty", FAULTY)];
    let mut files = Cabinet::new(&files, OpenFault::Unopened);
    files.piece = piece;
    let mut reader = source_of(case.index, 7);
    reader.piece = piece;
    expect_of(rt, &files, &mut reader, case);
}

/// Each stanza ends with a piece of one of these sizes, and each text has several pieces of most.
#[test]
fn pieces_of_any_size_come_to_the_same(rt: HostRuntime) {
    for (words, index, status, told) in &CASES {
        let told = report_of(rt.alloc(), *told).expect(&rt, "no memory");
        let case = Case {
            words: *words,
            index: *index,
            status: *status,
            told: told.as_bytes(),
        };
        for piece in 1..=80 {
            expect_pieces(&rt, &case, piece);
        }
        expect_pieces(&rt, &case, 4_194_304);
    }
}
