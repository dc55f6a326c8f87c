//! The names of an index that differ in numbers alone from missing ones.

use crate::asking::{Asked, Case, REPORT, USUAL, Wanted, expect};
use run_settings::{Format, Show};
use std::alloc::AllocGlobal;
use std::process::Abort;
use std::test::Fail;

/// What is asked where the report is to end with the causes.
const CAUSES: Asked<'static> = Asked {
    explain: false,
    show: Show::Failures,
    causes: true,
    ..USUAL
};

/// One package needs a name of each kind.
const NUMBERED: &str =
    "libio-pty-perl 1 {Depends: perlapi-5.42.2} / perl-base 5.40.1-6 {Provides: perlapi-5.40.0, perlapi-5.40.1, perlapi-5.40.1:i386, perlapi-x}";

const NUMBERED_CAUSES: &str = "asked 2, broken 1, causes 1
cause 1 1 reasons {missing: perlapi-5.42.2} needed-by {libio-pty-perl 1 Depends: perlapi-5.42.2}
    similar {perlapi-5.40.0 / perlapi-5.40.1} broken {libio-pty-perl 1}";

const NUMBERED_JSON: &str = "\"causes\":[
{\"packages\":1,\"frees\":1,\"reasons\":[{\"kind\":\"missing\",\"relation\":\"perlapi-5.42.2\"}],\
\"needed-by\":[{\"package\":\"libio-pty-perl\",\"version\":\"1\",\"field\":\"Depends\",\"relation\":\"perlapi-5.42.2\"}],\
\"hits\":[],\"versions\":[],\"present\":[],\"similar\":[\"perlapi-5.40.0\",\"perlapi-5.40.1\"],\
\"broken\":[{\"package\":\"libio-pty-perl\",\"version\":\"1\"}]}
]}
";

const MANY: &str =
    "a 1 {Depends: n1 (>= 2) | o1} / n1 1 {Provides: n2, n3, n4, n5, n6} / o2 1 {Provides: n2, o1 (= 1), o3, n7, n8, n9, n10, n11} /
b 1 {Depends: m1 | o1 (>= 2) | n1 (>= 2)}";

const MANY_CAUSES: &str = "asked 4, broken 1, causes 1
cause 1 1 reasons {missing: m1 | o1 (>= 2) | n1 (>= 2)} needed-by {b 1 Depends: m1 | o1 (>= 2) | n1 (>= 2)}
    present {n1 1 / o2 1 (provides o1 (= 1))} similar {o2 / o3 / n2 / n3 / n4 / n5 / n6 / n7 / n8 / n9} broken {b 1}";

const OWN: &str =
    "a 1 {Depends: n1 (>= 2)} / n1 1 {Provides: n2, n3, n4, n5, n6, n7, n8, n9, n10, n11}";

const OWN_CAUSES: &str = "asked 2, broken 1, causes 1
cause 1 1 reasons {missing: n1 (>= 2)} needed-by {a 1 Depends: n1 (>= 2)} present {n1 1}
    similar {n2 / n3 / n4 / n5 / n6 / n7 / n8 / n9 / n10} broken {a 1}";

const CASES: &[Case] = &[
    Case {
        name: "provided names",
        text: NUMBERED,
        asked: CAUSES,
        wanted: Wanted::End(NUMBERED_CAUSES),
        ..REPORT
    },
    Case {
        name: "similar names in JSON",
        text: NUMBERED,
        asked: Asked {
            format: Format::Json,
            ..CAUSES
        },
        wanted: Wanted::End(NUMBERED_JSON),
        ..REPORT
    },
    // Alternative by alternative, those of each in the order of the index; each once, none of the missing ones themselves, and no more than ten.
    Case {
        name: "at most ten in order",
        text: MANY,
        asked: CAUSES,
        wanted: Wanted::End(MANY_CAUSES),
        ..REPORT
    },
    // The missing name is one of the first ten with its stem, and isn't told.
    Case {
        name: "the name itself is one of ten",
        text: OWN,
        asked: CAUSES,
        wanted: Wanted::End(OWN_CAUSES),
        ..REPORT
    },
];

#[test]
fn similar_names(rt: HostRuntime) -> Result<(), Fail> {
    for case in CASES {
        expect(&rt, case)?;
    }
    Ok(())
}

/// A missing name, another one that the index has, and whether it is told.
static PAIRS: &[(&str, &str, bool)] = &[
    // Numbers of libraries.
    (
        "librust-typed-path-0.12+default-dev",
        "librust-typed-path-0.13+default-dev",
        true,
    ),
    ("libbluray2", "libbluray3", true),
    (
        "libboost-filesystem1.83.0",
        "libboost-filesystem1.88.0",
        true,
    ),
    (
        "linux-headers-6.1.0-18-amd64",
        "linux-headers-6.12.3-amd64",
        false,
    ),
    (
        "linux-headers-6.1.0-18-amd64",
        "linux-headers-6.12.3-1-amd64",
        true,
    ),
    ("python3.12-abi", "python3-abi", true),
    // Sums of interfaces.
    ("libcoq-elpi-gwzp3", "libcoq-elpi-5btd8", true),
    ("libcoq-elpi-gwzp3", "libcoq-elpi-abcde", false),
    // Names without numbers alone are similar to none.
    ("abcd", "abce", false),
    ("abcdef", "abcdef2", true),
];

/// The index of a package that needs a name, and of one that has another.
fn expect_similar(
    rt: &(impl Abort + AllocGlobal),
    missing: &str,
    other: &str,
    is_told: bool,
) -> Result<(), Fail> {
    let alloc = rt.alloc();
    let text = format!(in alloc; "a 1 {{Depends: {missing}}} / {other} 1")?;
    let similar = if is_told {
        format!(in alloc; " similar {{{other}}}")?
    } else {
        String::new(alloc)
    };
    let wanted = format!(in alloc;
        "asked 2, broken 1, causes 1
cause 1 1 reasons {{missing: {missing}}} needed-by {{a 1 Depends: {missing}}}{similar} broken {{a 1}}"
    )?;
    let case = Case {
        name: &text,
        text: &text,
        asked: CAUSES,
        wanted: Wanted::End(&wanted),
        ..REPORT
    };
    expect(rt, &case)
}

#[test]
fn pairs_of_names(rt: HostRuntime) -> Result<(), Fail> {
    for (missing, other, is_told) in PAIRS {
        expect_similar(&rt, missing, other, *is_told)?;
    }
    Ok(())
}
