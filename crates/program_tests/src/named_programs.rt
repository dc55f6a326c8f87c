//! Whole programs whose names stand in a file.

use crate::runs::{Case, expect_on};
use debcheck::OpenFault;
use test_devices::{Cabinet, INDEX};
use test_texts::report_of;

const OF_C: &str = "c 1: broken
stanzas 2, skipped 0, duplicates 0, asked 1, broken 1";

const OF_BOTH: &str = "a 1: broken
c 1: broken
stanzas 2, skipped 0, duplicates 0, asked 2, broken 2";

const FIRST_LINE: &str = "debcheck: names: line 1: bad name";

const SECOND_LINE: &str = "debcheck: names: line 2: bad name";

/// What stands in the file, the status, and what is told: names that the index has, one that it doesn't have, and a file that has no line, an empty one, or
/// one that is no name.
static NAMES: [(&[u8], u8, &str); 12] = [
    (b"c\n", 1, OF_C),
    (b"c", 1, OF_C),
    (b"c\na\nc\n", 1, OF_BOTH),
    (b"a\nc", 1, OF_BOTH),
    (b"a\nzz\n", 66, "debcheck: unknown package zz"),
    (b"", 65, FIRST_LINE),
    (b"\n", 65, FIRST_LINE),
    (b"a\r\nc\r\n", 65, FIRST_LINE),
    (b"a,c\n", 65, FIRST_LINE),
    (b"a\n\nc\n", 65, SECOND_LINE),
    (b"a\nB c\n-d", 65, SECOND_LINE),
    (b"c\n\n", 65, SECOND_LINE),
];

const LINE: &str = "|--arch|amd64|--checkonly|@names";

#[test]
fn the_names_of_a_file_are_asked(rt: HostRuntime) {
    for (names, status, told) in &NAMES {
        let files = [("names", *names)];
        let report = report_of(rt.alloc(), *told).expect(&rt, "no memory");
        let case = Case {
            words: LINE,
            index: INDEX,
            status: *status,
            told: report.as_bytes(),
        };
        expect_on(&rt, &Cabinet::new(&files, OpenFault::Unopened), &case);
    }
}
