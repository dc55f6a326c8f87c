//! Whole programs: words, an index and perhaps files go in, and the status, the output and the errors are compared.

use crate::more_reasons::{ALL_REASONS, EDITOR, TWO_CAUSES, WHY};
use crate::runs::{expect_each, run_on};
use crate::since_programs::{
    self, ALL_OF_NEWS, BACKGROUND_OF_BOTH, CUT, EARLIER, ELSEWHERE, NEWS, TWO_NEEDS,
};
use debcheck::OpenFault;
use std::str::from_utf8;
use test_devices::{BACKGROUND, Cabinet, INDEX, source_of};

/// What programs tell on an index each of whose packages needs one that is not there.
static ON_INDEX: &str = r#"|--arch|amd64|--explain|--bg|others gives 1
a 1: ok {a 1 / b 2}
c 1: broken {missing: c 1 Depends: d}
stanzas 4, skipped 0, duplicates 0, background 2, asked 2, broken 1
====
|--arch|amd64|--failures gives 1
a 1: broken
c 1: broken
stanzas 2, skipped 0, duplicates 0, asked 2, broken 2
====
|--arch|amd64|--format|json|--causes|--bg=others gives 1
{"format":2,"options":["bg","causes"],"architecture":"amd64","report":[
{"package":"a","version":"1","architecture":"all","status":"ok"},
{"package":"c","version":"1","architecture":"all","status":"broken"}
],"stanzas":4,"skipped":0,"duplicates":0,"background":2,"asked":2,"broken":1,"causes":[
{"packages":1,"frees":1,"reasons":[{"kind":"missing","relation":"d"}],
 "needed-by":[{"package":"c","version":"1","field":"Depends","relation":"d"}],
 "hits":[],"versions":[],"present":[],"similar":[],"broken":[{"package":"c","version":"1"}]}
]}
====
|--arch|amd64|--checkonly|a|--bg|others|--quiet gives 0
a 1: ok
stanzas 4, skipped 0, duplicates 0, background 2, asked 1, broken 0
====
|--version gives 0
debcheck 1.0.0
====
|--arch|amd64|--bg|others|--checkonly|a,zz gives 66
debcheck: unknown package zz
====
|--arch|all gives 64
error: invalid value "all" for '--arch <A>': one or more letters, digits and -, neither all nor any

For more information, try '--help'."#;

static ON_FAULTY: &str = "|--arch|amd64 gives 65
debcheck: stanza 2: missing field";

static ON_EMPTY: &str = "|--arch|amd64|--strict gives 65
debcheck: the index is empty";

/// One stanza of another architecture, of which nothing is asked.
static ON_FOREIGN: &str = "|--arch|amd64|--strict|--format|json gives 65
debcheck: no stanza is of this architecture or of all
====
|--arch|amd64|--bg|others|--strict gives 65
debcheck: nothing is asked
====
|--arch|amd64|--strict|--checkonly|a gives 66
debcheck: unknown package a
====
|--arch|amd64 gives 0
stanzas 1, skipped 1, duplicates 0, asked 0, broken 0";

/// Most stanzas are of another architecture.
static ON_MOSTLY_FOREIGN: &str = "|--arch|amd64|--strict gives 0
c 1 amd64: ok
stanzas 3, skipped 2, duplicates 0, asked 1, broken 0";

/// What stands under the names of files.
static FILES: [(&str, &[u8]); 6] = [
    ("others", BACKGROUND),
    ("old", EARLIER),
    ("same", since_programs::INDEX),
    ("behind", BACKGROUND_OF_BOTH),
    ("elsewhere", ELSEWHERE),
    ("cut", CUT),
];

/// A report goes to the output, and a fault to the errors.
#[test]
fn each_program_tells_what_is_written(rt: HostRuntime) {
    let files = Cabinet::new(&FILES, OpenFault::Unopened);
    for (index, document) in [
        (from_utf8(INDEX).unwrap_or(""), ON_INDEX),
        (
            "Package: a\nVersion: 1\nArchitecture: all\n\nPackage: b\n",
            ON_FAULTY,
        ),
        ("", ON_EMPTY),
        ("a 1 arm64", ON_FOREIGN),
        ("a 1 arm64 / b 1 arm64 / c 1 amd64", ON_MOSTLY_FOREIGN),
        (TWO_CAUSES, ALL_REASONS),
        (EDITOR, WHY),
        (from_utf8(since_programs::INDEX).unwrap_or(""), NEWS),
        (TWO_NEEDS, ALL_OF_NEWS),
        (
            from_utf8(since_programs::INDEX).unwrap_or(""),
            since_programs::ON_INDEX,
        ),
        ("Package: a\nVersion: 1\n", since_programs::ON_FAULTY),
        ("", since_programs::ON_EMPTY),
        ("\n", since_programs::ON_EMPTY),
        ("c 1 arm64", since_programs::ON_FOREIGN),
    ] {
        expect_each(&rt, &files, index, document);
    }
}

/// What stands in the help.
static HELP_PARTS: [&str; 11] = [
    "Usage: debcheck [OPTIONS] --arch <A> < Packages\n",
    "--bg <FILE>",
    "--checkonly <NAMES>",
    "N1,N2,.. or @FILE",
    "--causes",
    "--all-reasons",
    "--why",
    "--quiet",
    "-h, --help",
    "\nExample: xzcat Packages.xz | debcheck --arch amd64 --failures --why --strict\n",
    "\nExit status: 0 all can be installed, 1 some cannot, ",
];

/// Help goes to the output, in lines that a terminal of 80 columns has room for.
#[test]
fn help_goes_to_the_output(rt: HostRuntime) {
    let files = Cabinet::new(&[], OpenFault::Unopened);
    let mut reader = source_of(INDEX, 11);
    let left = run_on(&rt, "|--help", &files, &mut reader);
    let text = from_utf8(&left.output.bytes).unwrap_or("");
    let mut fine = left.status == 0 && left.errors.bytes.is_empty() && reader.reads == 0;
    for part in &HELP_PARTS {
        fine &= text.contains(*part);
    }
    for line in text.lines() {
        fine &= line.len() <= 80;
    }
    assert!(rt; fine, "{text}");
}
