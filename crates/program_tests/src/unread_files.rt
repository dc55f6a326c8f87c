//! Programs one of whose files isn't opened, or can't be read: the index is not read.

use crate::runs::{Case, expect_on};
use debcheck::OpenFault;
use std::process::Abort;
use std::thread::Threads;
use std::time::Clock;
use test_devices::{Cabinet, INDEX};
use test_texts::report_of;

static FILES: [(&str, &[u8]); 3] = [
    ("names", b"a\n"),
    ("bad-names", b"a b\n"),
    ("others", b"Package: y\nVersion: 1\nArchitecture: all\n"),
];

/// How many files are asked for before it is told that another isn't opened; the words, the status, and what is told.
static UNOPENED: &str = "1 |--arch|amd64|--bg|no gives 67 debcheck: cannot read the background
1 |--arch|amd64|--bg|b|--checkonly|@no gives 67 debcheck: cannot read the names
1 |--arch|amd64|--since|b|--checkonly|@bad-names gives 65 debcheck: names: line 1: bad name
1 |--arch|amd64|--since|no gives 67 debcheck: cannot read the earlier index
2 |--arch|amd64|--since|no|--bg|others gives 67 debcheck: cannot read the earlier index
1 |--arch|amd64|--since|no|--bg|nor gives 67 debcheck: cannot read the background";

/// The same where memory is wanted to open it.
static NO_MEMORY: &str = "1 |--arch|amd64|--bg|no gives 69 debcheck: out of memory
1 |--arch|amd64|--checkonly|@no gives 69 debcheck: out of memory
2 |--arch|amd64|--since|no|--bg|others gives 69 debcheck: out of memory";

/// The same where reading a file fails.
static TORN: &str =
    "1 |--arch|amd64|--since|b|--checkonly|@names gives 67 debcheck: cannot read the names";

fn expect_line(
    rt: &(impl Abort + Clock + Threads + Sync + AllocGlobal),
    fault: OpenFault,
    torn: bool,
    line: &str,
) {
    let mut files = Cabinet::new(&FILES, fault);
    files.torn = torn;
    let (asked, program) = line.split_once(' ').expect(rt, line);
    let (words, end) = program.split_once(" gives ").expect(rt, line);
    let (status, told) = end.split_once(' ').expect(rt, line);
    let told = report_of(rt.alloc(), told).expect(rt, "no memory");
    let case = Case {
        words,
        index: INDEX,
        status: status.parse::<u8>().expect(rt, line),
        told: told.as_bytes(),
    };
    let reads = expect_on(rt, &files, &case);
    let wanted = asked.parse::<u32>().expect(rt, line);
    assert!(rt; reads == 0 && files.asked() == wanted, "{line}");
}

/// The names are read before all else, the background is opened before the earlier index, and both before the index is read.
#[test]
fn files_go_before_the_index(rt: HostRuntime) {
    for (fault, torn, lines) in [
        (OpenFault::Unopened, false, UNOPENED),
        (OpenFault::Memory, false, NO_MEMORY),
        (OpenFault::Unopened, true, TORN),
    ] {
        for line in lines.lines() {
            expect_line(&rt, fault, torn, line);
        }
    }
}
