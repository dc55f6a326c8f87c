//! The asked places and the report, each by itself.

use crate::asking::{Asked, Call, Case, REPORT, USUAL, Wanted, expect};
use run_settings::{Config, Show};
use std::process::Abort;
use std::test::Fail;

/// Two versions of a package, one that needs both, an unknown alternative, and a package that another one breaks.
const RELATED: &str =
    "n 1 / n 2 / a 1 {Pre-Depends: n (= 1); Depends: b} / b 1 {Depends: n (= 2)} / c 1 {Depends: zz | yy} / d 1 {Depends: e} / e 1 {Breaks: d}";

/// A package that conflicts with an essential one.
const ESSENTIAL: &str = "base 1 amd64 {Essential: yes} / x 1 {Conflicts: base}";

/// The places that are asked of the index of two versions of a package and others.
const PLACES: Case = Case {
    name: "the places of all packages",
    text: RELATED,
    call: Call::Asked,
    wanted: Wanted::Places(&[0, 1, 2, 3, 4, 5, 6]),
    ..REPORT
};

const RELATED_FAILURES: &str =
    "a 1: broken {depends: a 1 Pre-Depends: n (= 1) / depends: a 1 Depends: b / depends: b 1 Depends: n (= 2) / versions: n}
c 1: broken {missing: c 1 Depends: zz | yy}
d 1: broken {depends: d 1 Depends: e / conflict: e 1 Breaks: d}
stanzas 7, skipped 0, duplicates 0, asked 7, broken 3";

const RELATED_SUCCESSES: &str = "n 1: ok {n 1}
n 2: ok {n 2}
b 1: ok {n 2 / b 1}
e 1: ok {e 1}
stanzas 7, skipped 0, duplicates 0, asked 7, broken 3";

const ESSENTIAL_REPORT: &str = "base 1 amd64: ok {base 1}
x 1: broken {essential: base / conflict: x 1 Conflicts: base}
stanzas 2, skipped 0, duplicates 0, asked 2, broken 1";

const SHORT_REPORT: &str = "x 1: broken
stanzas 2, skipped 0, duplicates 0, asked 1, broken 1";

pub const PLACES_OF_NAMES: Case = Case {
    name: "the places of names rise",
    asked: Asked {
        only: Some(&[b"e", b"n", b"a", b"e"]),
        ..USUAL
    },
    wanted: Wanted::Places(&[0, 1, 2, 6]),
    ..PLACES
};

pub const UNKNOWN_NAME: Case = Case {
    name: "the first unknown name",
    asked: Asked {
        only: Some(&[b"a", b"zz", b"b", b"yy"]),
        ..USUAL
    },
    wanted: Wanted::Unknown(b"zz"),
    ..PLACES
};

pub const FAILURES: Case = Case {
    name: "failures alone",
    text: RELATED,
    asked: Asked {
        show: Show::Failures,
        ..USUAL
    },
    wanted: Wanted::Report(RELATED_FAILURES),
    ..REPORT
};

pub const SUCCESSES: Case = Case {
    name: "successes alone",
    text: RELATED,
    asked: Asked {
        show: Show::Successes,
        ..USUAL
    },
    wanted: Wanted::Report(RELATED_SUCCESSES),
    ..REPORT
};

const CASES: &[Case] = &[
    PLACES,
    PLACES_OF_NAMES,
    Case {
        name: "no places of no names",
        asked: Asked {
            only: Some(&[]),
            ..USUAL
        },
        wanted: Wanted::Places(&[]),
        ..PLACES
    },
    UNKNOWN_NAME,
    FAILURES,
    SUCCESSES,
    Case {
        name: "essential names are reasons",
        text: ESSENTIAL,
        wanted: Wanted::Report(ESSENTIAL_REPORT),
        ..REPORT
    },
    Case {
        name: "a report without explanations",
        text: ESSENTIAL,
        asked: Asked {
            explain: false,
            only: Some(&[b"x"]),
            ..USUAL
        },
        wanted: Wanted::Report(SHORT_REPORT),
        ..REPORT
    },
];

#[test]
fn reports(rt: HostRuntime) -> Result<(), Fail> {
    for case in CASES {
        expect(&rt, case)?;
    }
    Ok(())
}

/// Whether blocks explain, which packages have one, and whether the sets are told.
const SETS_TOLD: &[(bool, Show, bool)] = &[
    (true, Show::All, true),
    (true, Show::Failures, false),
    (true, Show::Successes, true),
    (false, Show::All, false),
    (false, Show::Failures, false),
    (false, Show::Successes, false),
];

fn expect_sets_told(rt: &impl Abort, config: &mut Config) {
    for (explain, show, wanted) in SETS_TOLD {
        config.explain = *explain;
        config.show = *show;
        assert!(rt; config.shows_sets() == *wanted, "sets: {explain}, {show:?}");
    }
}

#[test]
fn sets_are_told_where_blocks_explain(rt: HostRuntime) {
    let mut config = Config::usual(rt.alloc()).expect(&rt, "no memory");
    expect_sets_told(&rt, &mut config);
}
