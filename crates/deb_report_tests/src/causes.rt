//! The block of causes.

use crate::asking::{Asked, Call, Case, REPORT, USUAL, Wanted, expect};
use run_settings::{Format, Show};
use std::test::Fail;

const CHAIN: &str = "a 1 {Depends: b} / b 1 {Depends: c (>= 2)} / c 1";

const CHAIN_CAUSES: &str = "asked 3, broken 2, causes 1
cause 2 2 reasons {missing: c (>= 2)} needed-by {b 1 Depends: c (>= 2)} present {c 1} broken {a 1 / b 1}";

/// The second of the packages alone.
const ONE_CAUSE: &str = "asked 2, broken 1, causes 1
cause 1 1 reasons {missing: c (>= 2)} needed-by {b 1 Depends: c (>= 2)} present {c 1} broken {b 1}";

/// An essential package, one that conflicts with it, one that needs two versions of a name at once, and one of whose alternatives none is
/// there as it is asked for. The last breaks a package behind it, so that its cause goes first.
const KINDS: &str =
    "e 1 {Essential: yes} / x 1 {Conflicts: e} / p 1 {Depends: q (= 1), r} / r 1 {Depends: q (= 2)} / q 1 / q 2 /
w 1 {Provides: v (= 1), u, n (= 1), k:i386} / m 1 {Depends: n (>= 2) | v (>= 2) | k} / n 1 {Provides: v (= 1)} / z 1 {Pre-Depends: m}";

const KINDS_CAUSES: &str = "asked 10, broken 4, causes 3
cause 2 2 reasons {missing: n (>= 2) | v (>= 2) | k} needed-by {m 1 Depends: n (>= 2) | v (>= 2) | k}
    present {w 1 (provides v (= 1), n (= 1)) / n 1} broken {m 1 / z 1}
cause 1 1 reasons {essential: e / conflict: x 1 Conflicts: e} hits {e 1} broken {x 1}
cause 1 1 reasons {versions: q} versions {q 1 / q 2} broken {p 1}";

const KINDS_JSON: &str = "\"causes\":[
{\"packages\":2,\"frees\":2,\"reasons\":[{\"kind\":\"missing\",\"relation\":\"n (>= 2) | v (>= 2) | k\"}],\
\"needed-by\":[{\"package\":\"m\",\"version\":\"1\",\"field\":\"Depends\",\"relation\":\"n (>= 2) | v (>= 2) | k\"}],\
\"hits\":[],\"versions\":[],\
\"present\":[{\"package\":\"w\",\"version\":\"1\",\"provides\":[\"v (= 1)\",\"n (= 1)\"]},{\"package\":\"n\",\"version\":\"1\"}],\
\"similar\":[],\"broken\":[{\"package\":\"m\",\"version\":\"1\"},{\"package\":\"z\",\"version\":\"1\"}]},
{\"packages\":1,\"frees\":1,\"reasons\":[{\"kind\":\"essential\",\"name\":\"e\"},\
{\"kind\":\"conflict\",\"package\":\"x\",\"version\":\"1\",\"field\":\"Conflicts\",\"relation\":\"e\"}],\
\"needed-by\":[],\"hits\":[{\"package\":\"e\",\"version\":\"1\"}],\"versions\":[],\"present\":[],\"similar\":[],\
\"broken\":[{\"package\":\"x\",\"version\":\"1\"}]},
{\"packages\":1,\"frees\":1,\"reasons\":[{\"kind\":\"versions\",\"name\":\"q\"}],\
\"needed-by\":[],\"hits\":[],\"versions\":[{\"package\":\"q\",\"version\":\"1\"},{\"package\":\"q\",\"version\":\"2\"}],\
\"present\":[],\"similar\":[],\"broken\":[{\"package\":\"p\",\"version\":\"1\"}]}
]}
";

/// Two packages that need the same name, one behind them, and a second name that one of them needs.
const SHARED: &str = "a 1 {Depends: x, y} / b 1 {Pre-Depends: x} / c 1 {Depends: b}";

/// The causes where all cores of the first are known: to mend one of two causes frees no package that has both.
const SHARED_CAUSES: &str = "stanzas 3, skipped 0, duplicates 0, asked 3, broken 3, causes 2
cause 3 2 reasons {missing: x} needed-by {a 1 Depends: x / b 1 Pre-Depends: x} broken {a 1 / b 1 / c 1}
cause 1 0 reasons {missing: y} needed-by {a 1 Depends: y} broken {a 1}";

const FIRST_CAUSES: &str = "stanzas 3, skipped 0, duplicates 0, asked 3, broken 3, causes 2
cause 2 2 reasons {missing: x} needed-by {b 1 Pre-Depends: x} broken {b 1 / c 1}
cause 1 1 reasons {missing: y} needed-by {a 1 Depends: y} broken {a 1}";

/// What is asked where the report is to end with the causes.
const CAUSES: Asked<'static> = Asked {
    causes: true,
    ..USUAL
};

/// The causes of the chain are the same whatever is shown.
pub const CHAIN_SHOWN: Case = Case {
    name: "one cause for whatever is shown",
    text: CHAIN,
    asked: CAUSES,
    wanted: Wanted::End(CHAIN_CAUSES),
    ..REPORT
};

/// What is asked where the report has no blocks and ends with the causes.
const CAUSES_ALONE: Asked<'static> = Asked {
    show: Show::Successes,
    ..CAUSES
};

/// All causes, whoever needs it.
pub const SHARED_TOLD: Case = Case {
    name: "all causes, whoever needs it",
    text: SHARED,
    call: Call::Told(3),
    asked: CAUSES_ALONE,
    wanted: Wanted::Report(SHARED_CAUSES),
    ..REPORT
};

pub const KINDS_IN_JSON: Case = Case {
    name: "causes of each kind in JSON",
    text: KINDS,
    asked: Asked {
        format: Format::Json,
        ..CAUSES
    },
    wanted: Wanted::End(KINDS_JSON),
    ..REPORT
};

const CASES: &[Case] = &[
    Case {
        name: "no causes that are not asked for",
        text: CHAIN,
        asked: Asked {
            explain: false,
            show: Show::Successes,
            ..USUAL
        },
        wanted: Wanted::End("asked 3, broken 2"),
        ..REPORT
    },
    Case {
        name: "only asked packages have causes",
        text: CHAIN,
        asked: Asked {
            only: Some(&[b"b", b"c"]),
            ..CAUSES
        },
        wanted: Wanted::End(ONE_CAUSE),
        ..REPORT
    },
    Case {
        name: "a package that is not broken has no cause",
        text: CHAIN,
        asked: Asked {
            only: Some(&[b"c"]),
            ..CAUSES
        },
        wanted: Wanted::End("asked 1, broken 0, causes 0"),
        ..REPORT
    },
    Case {
        name: "no causes where none is broken",
        asked: CAUSES,
        wanted: Wanted::End("asked 0, broken 0, causes 0"),
        ..REPORT
    },
    Case {
        name: "causes of each kind",
        text: KINDS,
        asked: CAUSES,
        wanted: Wanted::End(KINDS_CAUSES),
        ..REPORT
    },
    KINDS_IN_JSON,
    SHARED_TOLD,
    Case {
        name: "causes of first cores",
        call: Call::Told(0),
        wanted: Wanted::Report(FIRST_CAUSES),
        ..SHARED_TOLD
    },
    Case {
        name: "causes beside walks",
        text: KINDS,
        asked: Asked {
            why: true,
            ..CAUSES
        },
        wanted: Wanted::End(KINDS_CAUSES),
        ..REPORT
    },
    Case {
        name: "causes beside walks in JSON",
        text: KINDS,
        asked: Asked {
            why: true,
            format: Format::Json,
            ..CAUSES
        },
        wanted: Wanted::End(KINDS_JSON),
        ..REPORT
    },
];

#[test]
fn causes(rt: HostRuntime) -> Result<(), Fail> {
    for case in CASES {
        expect(&rt, case)?;
    }
    for explain in [true, false] {
        for show in [Show::All, Show::Failures, Show::Successes] {
            let asked = Asked {
                explain,
                show,
                ..CAUSES
            };
            let case = Case {
                asked,
                ..CHAIN_SHOWN
            };
            expect(&rt, &case)?;
        }
    }
    Ok(())
}
