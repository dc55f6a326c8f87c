//! The cores behind the first, and the words that a document begins with.

use crate::asking::{Asked, Call, Case, REPORT, USUAL, Wanted, expect};
use run_settings::{Format, Show};
use std::test::Fail;

/// What is asked where all reasons are told.
const ALL_REASONS: Asked<'static> = Asked {
    all_reasons: true,
    ..USUAL
};

/// The same in JSON.
const ALL_IN_JSON: Asked<'static> = Asked {
    format: Format::Json,
    ..ALL_REASONS
};

/// Two packages that miss two and three names, and one that can be installed.
const MISSING: &str = "a 1 {Depends: x, y} / b 1 {Depends: x, y, z} / c 1";

const ALL_CORES: &str = "a 1: broken {missing: a 1 Depends: y} also {missing: a 1 Depends: x}
b 1: broken {missing: b 1 Depends: z} also {missing: b 1 Depends: y} also {missing: b 1 Depends: x}
c 1: ok {c 1}
stanzas 3, skipped 0, duplicates 0, asked 3, broken 2";

/// Of the first place alone.
const CORES_OF_FIRST: &str = "a 1: broken {missing: a 1 Depends: y} also {missing: a 1 Depends: x}
b 1: broken {missing: b 1 Depends: z}
c 1: ok {c 1}
stanzas 3, skipped 0, duplicates 0, asked 3, broken 2";

const FIRST_CORES: &str = "a 1: broken {missing: a 1 Depends: y}
b 1: broken {missing: b 1 Depends: z}
c 1: ok {c 1}
stanzas 3, skipped 0, duplicates 0, asked 3, broken 2";

/// How many cores stand behind the first.
const FURTHER: &str = "a 1: broken {missing: a 1 Depends: y} further 1
b 1: broken {missing: b 1 Depends: z} further 2
c 1: ok {c 1}
stanzas 3, skipped 0, duplicates 0, asked 3, broken 2";

/// The blocks without their reasons.
const UNEXPLAINED: &str = "a 1: broken
b 1: broken
stanzas 3, skipped 0, duplicates 0, asked 3, broken 2";

const DOCUMENT: &str =
    r#"{"format":2,"options":["explain","all-reasons"],"architecture":"amd64","report":[
{"package":"a","version":"1","architecture":"all","status":"broken",
 "reasons":[{"kind":"missing","package":"a","version":"1","field":"Depends","relation":"y"}],
 "also":[[{"kind":"missing","package":"a","version":"1","field":"Depends","relation":"x"}]]},
{"package":"b","version":"1","architecture":"all","status":"broken",
 "reasons":[{"kind":"missing","package":"b","version":"1","field":"Depends","relation":"z"}],
 "also":[[{"kind":"missing","package":"b","version":"1","field":"Depends","relation":"y"}],
 [{"kind":"missing","package":"b","version":"1","field":"Depends","relation":"x"}]]},
{"package":"c","version":"1","architecture":"all","status":"ok","installation-set":[{"package":"c","version":"1"}]}
],"stanzas":3,"skipped":0,"duplicates":0,"asked":3,"broken":2}"#;

const DOCUMENT_OF_FIRST: &str =
    r#"{"format":2,"options":["explain","all-reasons"],"architecture":"amd64","report":[
{"package":"a","version":"1","architecture":"all","status":"broken",
 "reasons":[{"kind":"missing","package":"a","version":"1","field":"Depends","relation":"y"}],
 "also":[[{"kind":"missing","package":"a","version":"1","field":"Depends","relation":"x"}]]},
{"package":"b","version":"1","architecture":"all","status":"broken",
 "reasons":[{"kind":"missing","package":"b","version":"1","field":"Depends","relation":"z"}],"also":[]},
{"package":"c","version":"1","architecture":"all","status":"ok","installation-set":[{"package":"c","version":"1"}]}
],"stanzas":3,"skipped":0,"duplicates":0,"asked":3,"broken":2}"#;

const COUNTED: &str =
    r#"{"format":2,"options":["explain","failures"],"architecture":"amd64","report":[
{"package":"a","version":"1","architecture":"all","status":"broken",
 "reasons":[{"kind":"missing","package":"a","version":"1","field":"Depends","relation":"y"}],"further":1},
{"package":"b","version":"1","architecture":"all","status":"broken",
 "reasons":[{"kind":"missing","package":"b","version":"1","field":"Depends","relation":"z"}]}
],"stanzas":3,"skipped":0,"duplicates":0,"asked":3,"broken":2}"#;

/// A package with a cause of its own, and one of another package, which stand near other names.
const FAR: &str = "a 1 {Depends: b, y1} / b 1 {Depends: x (>= 2)} / x 1 / y2 1";

const WALKED: &str =
    "a 1: broken why {a 1 Depends: y1 missing; similar: y2} also {a 1 Depends: b / b 1 Depends: x (>= 2) missing; present: x 1}
stanzas 4, skipped 0, duplicates 0, asked 1, broken 1";

const MANY_WORDS: &str =
    r#"{"format":2,"options":["explain","failures","ignore-essential","checkonly","bg","since","all-reasons","why"],"architecture":"amd64","report":["#;

const FEW_WORDS: &str =
    r#"{"format":2,"options":["successes","since","why"],"architecture":"amd64","report":["#;

/// The document where the later cores of the first place alone are known.
pub const FIRST_IN_JSON: Case = Case {
    name: "later cores in JSON of the first place alone",
    text: MISSING,
    call: Call::Told(1),
    asked: ALL_IN_JSON,
    wanted: Wanted::Report(DOCUMENT_OF_FIRST),
    ..REPORT
};

const CASES: &[Case] = &[
    Case {
        name: "later cores stand behind the first",
        text: MISSING,
        call: Call::Told(3),
        asked: ALL_REASONS,
        wanted: Wanted::Report(ALL_CORES),
        ..REPORT
    },
    Case {
        name: "a place past the end of the list has no later cores",
        text: MISSING,
        call: Call::Told(1),
        asked: ALL_REASONS,
        wanted: Wanted::Report(CORES_OF_FIRST),
        ..REPORT
    },
    Case {
        name: "later cores that are not asked for are counted",
        text: MISSING,
        call: Call::Told(3),
        wanted: Wanted::Report(FURTHER),
        ..REPORT
    },
    Case {
        name: "in JSON, those that are known",
        text: MISSING,
        call: Call::Told(1),
        asked: Asked {
            show: Show::Failures,
            format: Format::Json,
            ..USUAL
        },
        wanted: Wanted::Report(COUNTED),
        ..REPORT
    },
    Case {
        name: "later cores are walked, too",
        text: FAR,
        call: Call::Told(1),
        asked: Asked {
            only: Some(&[b"a"]),
            why: true,
            ..ALL_REASONS
        },
        wanted: Wanted::Report(WALKED),
        ..REPORT
    },
    Case {
        name: "no later cores are known",
        text: MISSING,
        asked: ALL_REASONS,
        wanted: Wanted::Report(FIRST_CORES),
        ..REPORT
    },
    Case {
        name: "later cores are explanations",
        text: MISSING,
        call: Call::Told(3),
        asked: Asked {
            explain: false,
            show: Show::Failures,
            ..ALL_REASONS
        },
        wanted: Wanted::Report(UNEXPLAINED),
        ..REPORT
    },
    Case {
        name: "later cores in JSON",
        text: MISSING,
        call: Call::Told(3),
        asked: ALL_IN_JSON,
        wanted: Wanted::Report(DOCUMENT),
        ..REPORT
    },
    FIRST_IN_JSON,
    Case {
        name: "a document begins with its words",
        text: MISSING,
        call: Call::Since(""),
        asked: Asked {
            show: Show::Failures,
            only: Some(&[b"a"]),
            essential: false,
            background: true,
            why: true,
            ..ALL_IN_JSON
        },
        wanted: Wanted::Start(MANY_WORDS),
        ..REPORT
    },
    Case {
        name: "a document begins with few words",
        text: MISSING,
        call: Call::Since(""),
        asked: Asked {
            explain: false,
            show: Show::Successes,
            why: true,
            format: Format::Json,
            ..USUAL
        },
        wanted: Wanted::Start(FEW_WORDS),
        ..REPORT
    },
    Case {
        name: "a document begins so without causes and reasons, too",
        text: MISSING,
        call: Call::Since(""),
        asked: Asked {
            background: true,
            format: Format::Json,
            ..USUAL
        },
        wanted: Wanted::Start(
            r#"{"format":2,"options":["explain","bg","since"],"architecture":"amd64","report":["#,
        ),
        ..REPORT
    },
];

#[test]
fn later_cores_and_words(rt: HostRuntime) -> Result<(), Fail> {
    for case in CASES {
        expect(&rt, case)?;
    }
    Ok(())
}
