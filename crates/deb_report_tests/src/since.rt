//! The report since an earlier index.

use crate::asking::{Asked, Call, Case, REPORT, USUAL, Wanted, expect};
use run_settings::{Format, Show};
use std::test::Fail;

/// Two broken packages and one that isn't.
const EARLIER: &str = "a 1 {Depends: lib} / b 2 {Depends: lib} / c 1";

/// The first is mended, the second is gone, the third is broken, and so is one more.
const LATER: &str = "a 2 / c 1 amd64 {Depends: lib} / d 1 {Depends: c}";

const NEWS_EXPLAINED: &str = "c 1 amd64: broken {missing: c 1 Depends: lib}
d 1: broken {missing: c 1 Depends: lib / depends: d 1 Depends: c}
stanzas 3, skipped 0, duplicates 0, asked 3, broken 2, newly-broken 2, mended {a 1}, gone {b 2}";

const WITH_CAUSES: &str = "c 1 amd64: broken {missing: c 1 Depends: lib}
d 1: broken {missing: c 1 Depends: lib / depends: d 1 Depends: c}
stanzas 3, skipped 0, duplicates 0, asked 3, broken 2, newly-broken 2, mended {a 1}, gone {b 2}, causes 1
cause 2 2 reasons {missing: lib} needed-by {c 1 Depends: lib} broken {c 1 / d 1}";

const UNEXPLAINED: &str = "c 1 amd64: broken
d 1: broken
stanzas 3, skipped 0, duplicates 0, asked 3, broken 2, newly-broken 2, mended {a 1}, gone {b 2}, causes 1
cause 2 2 reasons {missing: lib} needed-by {c 1 Depends: lib} broken {c 1 / d 1}";

const DOCUMENT: &str = r#"{"format":2,"options":["since"],"architecture":"amd64","report":[
{"package":"c","version":"1","architecture":"amd64","status":"broken"},
{"package":"d","version":"1","architecture":"all","status":"broken"}
],"stanzas":3,"skipped":0,"duplicates":0,"asked":3,"broken":2,"newly-broken":2,
 "mended":[{"package":"a","version":"1"}],"gone":[{"package":"b","version":"2"}]}"#;

const SINCE_DOCUMENT: &str =
    r#"{"format":2,"options":["explain","since","causes"],"architecture":"amd64","report":[
{"package":"c","version":"1","architecture":"amd64","status":"broken",
 "reasons":[{"kind":"missing","package":"c","version":"1","field":"Depends","relation":"lib"}]},
{"package":"d","version":"1","architecture":"all","status":"broken",
 "reasons":[{"kind":"missing","package":"c","version":"1","field":"Depends","relation":"lib"},
 {"kind":"depends","package":"d","version":"1","field":"Depends","relation":"c"}]}
],"stanzas":3,"skipped":0,"duplicates":0,"asked":3,"broken":2,"newly-broken":2,
 "mended":[{"package":"a","version":"1"}],"gone":[{"package":"b","version":"2"}],"causes":[
{"packages":2,"frees":2,"reasons":[{"kind":"missing","relation":"lib"}],
 "needed-by":[{"package":"c","version":"1","field":"Depends","relation":"lib"}],"hits":[],"versions":[],"present":[],"similar":[],
 "broken":[{"package":"c","version":"1"},{"package":"d","version":"1"}]}
]}"#;

/// Of the first name one of two versions is broken, and then another one: no news. Of the second none is broken, and then one of two. The two of
/// the third name are mended by one. The fourth is broken still, in a new version.
const VERSIONS: &str =
    "n 1 {Depends: lib} / n 2 / m 1 / k 2 {Depends: lib} / k 1 {Depends: lib} / s 1 {Depends: lib}";

const OTHER_VERSIONS: &str =
    "n 1 / n 3 {Depends: lib} / s 2 {Depends: lib (>= 2)} / m 1 / m 2 {Depends: lib} / k 3";

const VERSIONS_REPORT: &str = "m 2: broken {missing: m 2 Depends: lib}
stanzas 6, skipped 0, duplicates 0, asked 6, broken 3, newly-broken 1, mended {k 2 / k 1}, gone {}, causes 1
cause 1 1 reasons {missing: lib} needed-by {m 2 Depends: lib} broken {m 2}";

const NOTHING_NEW: &str =
    "stanzas 3, skipped 0, duplicates 0, asked 3, broken 2, newly-broken 0, mended {}, gone {}, causes 0";

const ALL_NEW: &str = "c 1 amd64: broken {missing: c 1 Depends: lib}
d 1: broken {missing: c 1 Depends: lib / depends: d 1 Depends: c}
stanzas 3, skipped 0, duplicates 0, asked 3, broken 2, newly-broken 2, mended {}, gone {}";

const ALL_GONE: &str =
    "stanzas 0, skipped 0, duplicates 0, asked 0, broken 0, newly-broken 0, mended {}, gone {a 1 / b 2}";

/// A name is provided alone, and one is in the background alone.
const PROVIDED: &str = "p 1 {Provides: a}";

const STILL_GONE: &str =
    "stanzas 2, skipped 0, duplicates 0, background 1, asked 1, broken 0, newly-broken 0, mended {}, gone {a 1 / b 2}";

const TWO_NAMES: &str = "d 1: broken {missing: c 1 Depends: lib / depends: d 1 Depends: c}
stanzas 3, skipped 0, duplicates 0, asked 2, broken 1, newly-broken 1, mended {a 1}, gone {}";

const CAUSES: Asked<'static> = Asked {
    causes: true,
    ..USUAL
};

/// The report on the later text since the earlier one, with the causes of what is newly broken.
pub const SINCE: Case = Case {
    name: "since an earlier index",
    text: LATER,
    call: Call::Since(EARLIER),
    asked: CAUSES,
    wanted: Wanted::Report(WITH_CAUSES),
    ..REPORT
};

pub const SINCE_IN_JSON: Case = Case {
    name: "since an earlier index, in JSON",
    asked: Asked {
        causes: true,
        format: Format::Json,
        ..USUAL
    },
    wanted: Wanted::Report(SINCE_DOCUMENT),
    ..SINCE
};

/// The places of what is newly broken since then.
pub const NEWS: Case = Case {
    name: "places of the newly broken",
    text: LATER,
    call: Call::News(EARLIER),
    wanted: Wanted::Places(&[1, 2]),
    ..REPORT
};

const CASES: &[Case] = &[
    // The newly broken have a block, whatever is to be shown.
    Case {
        name: "news, mended and gone",
        asked: Asked {
            show: Show::All,
            ..USUAL
        },
        wanted: Wanted::Report(NEWS_EXPLAINED),
        ..SINCE
    },
    Case {
        name: "news, mended and gone",
        asked: Asked {
            show: Show::Failures,
            ..USUAL
        },
        wanted: Wanted::Report(NEWS_EXPLAINED),
        ..SINCE
    },
    Case {
        name: "news, mended and gone",
        asked: Asked {
            show: Show::Successes,
            ..USUAL
        },
        wanted: Wanted::Report(NEWS_EXPLAINED),
        ..SINCE
    },
    Case {
        name: "causes without explanations",
        asked: Asked {
            explain: false,
            causes: true,
            ..USUAL
        },
        wanted: Wanted::Report(UNEXPLAINED),
        ..SINCE
    },
    Case {
        name: "JSON without explanations and causes",
        asked: Asked {
            explain: false,
            format: Format::Json,
            ..USUAL
        },
        wanted: Wanted::Report(DOCUMENT),
        ..SINCE
    },
    Case {
        name: "several versions of a name",
        text: OTHER_VERSIONS,
        call: Call::Since(VERSIONS),
        asked: CAUSES,
        wanted: Wanted::Report(VERSIONS_REPORT),
        ..REPORT
    },
    Case {
        name: "nothing since the same index",
        text: LATER,
        call: Call::Since(LATER),
        asked: CAUSES,
        wanted: Wanted::Report(NOTHING_NEW),
        ..REPORT
    },
    Case {
        name: "nothing before",
        text: LATER,
        call: Call::Since(""),
        wanted: Wanted::Report(ALL_NEW),
        ..REPORT
    },
    Case {
        name: "nothing now",
        call: Call::Since(EARLIER),
        wanted: Wanted::Report(ALL_GONE),
        ..REPORT
    },
    Case {
        name: "provided names and those of a background",
        text: PROVIDED,
        background: "b 2",
        call: Call::Since(EARLIER),
        asked: Asked {
            background: true,
            ..USUAL
        },
        wanted: Wanted::Report(STILL_GONE),
        ..REPORT
    },
    // A listed name that the earlier index doesn't have is no fault.
    Case {
        name: "listed names",
        asked: Asked {
            only: Some(&[b"a", b"d"]),
            ..USUAL
        },
        wanted: Wanted::Report(TWO_NAMES),
        ..SINCE
    },
    SINCE_IN_JSON,
    NEWS,
    // Of one name another version was broken, of one none is broken any more, and one was broken and is still.
    Case {
        name: "places where there are several versions",
        text: OTHER_VERSIONS,
        call: Call::News(VERSIONS),
        wanted: Wanted::Places(&[4]),
        ..REPORT
    },
    Case {
        name: "no places since the same index",
        text: LATER,
        call: Call::News(LATER),
        wanted: Wanted::Places(&[]),
        ..REPORT
    },
    Case {
        name: "places where nothing was before",
        text: OTHER_VERSIONS,
        call: Call::News(""),
        wanted: Wanted::Places(&[1, 2, 4]),
        ..REPORT
    },
    Case {
        name: "places of listed names",
        asked: Asked {
            only: Some(&[b"d", b"a"]),
            ..USUAL
        },
        wanted: Wanted::Places(&[2]),
        ..NEWS
    },
];

#[test]
fn since_an_earlier_index(rt: HostRuntime) -> Result<(), Fail> {
    for case in CASES {
        expect(&rt, case)?;
    }
    Ok(())
}
