//! Cores as they are walked from the package.

use crate::asking::{Asked, Case, REPORT, USUAL, Wanted, expect};
use run_settings::Format;
use std::alloc::AllocGlobal;
use std::process::Abort;
use std::test::Fail;

/// A package, the text of an index, and the report or the document on the package alone, in which its core is walked.
pub type Walked = (&'static str, &'static str, &'static str);

/// Compares the walk from a package with what is expected.
pub fn expect_walk(rt: &(impl Abort + AllocGlobal), walked: &Walked) -> Result<(), Fail> {
    let (name, text, told) = *walked;
    let names = [name.as_bytes()];
    let format = if told.starts_with('{') {
        Format::Json
    } else {
        Format::Text
    };
    let asked = Asked {
        only: Some(&names),
        why: true,
        format,
        ..USUAL
    };
    let case = Case {
        name: told,
        text,
        asked,
        wanted: Wanted::Report(told),
        ..REPORT
    };
    expect(rt, &case)
}

/// The example of the README.
pub static EDITOR_WALK: Walked = (
    "editor",
    EDITOR,
    "editor 2.1: broken why {editor 2.1 Depends: gui / gui 4.0 / editor 2.1 Depends: speller (>= 3) / speller 3.2 Depends: word-list | dictionary /
    dictionary 1 Conflicts: gui (<< 5) hits gui 4.0 (above)}
stanzas 4, skipped 0, duplicates 0, asked 1, broken 1",
);

/// An answer to each need, and what the entry hits.
pub static EDITOR_DOCUMENT: Walked = (
    "editor",
    EDITOR,
    r#"{"format":2,"options":["explain","checkonly","why"],"architecture":"amd64","report":[
{"package":"editor","version":"2.1","architecture":"all","status":"broken","reasons":[
 {"kind":"conflict","package":"dictionary","version":"1","field":"Conflicts","relation":"gui (<< 5)","hits":[{"package":"gui","version":"4.0"}]},
 {"kind":"depends","package":"editor","version":"2.1","field":"Depends","relation":"gui","met-by":[{"package":"gui","version":"4.0"}]},
 {"kind":"depends","package":"editor","version":"2.1","field":"Depends","relation":"speller (>= 3)","met-by":[{"package":"speller","version":"3.2"}]},
 {"kind":"depends","package":"speller","version":"3.2","field":"Depends","relation":"word-list | dictionary",
 "met-by":[{"package":"dictionary","version":"1"}]}]}
],"stanzas":4,"skipped":0,"duplicates":0,"asked":1,"broken":1}"#,
);

const EDITOR: &str =
    "dictionary 1 {Conflicts: gui (<< 5)} / editor 2.1 {Depends: gui, speller (>= 3)} / gui 4.0 / speller 3.2 {Depends: word-list | dictionary}";

const PROVIDED: &str = "app 1 {Depends: v (= 1)} / lib 2 {Depends: gone; Provides: u, v (= 1)}";

const VERSIONS: &str = "p 1 {Depends: q (= 1), r} / r 1 {Depends: q (= 2)} / q 1 / q 2 / q 3";

const ESSENTIAL: &str = "e 1 {Essential: yes} / x 1 {Conflicts: e}";

const MISSING: &str =
    "a 1 {Pre-Depends: b} / b 1 {Depends: c (>= 2) | d (>= 4)} / c 1 / e 1 {Provides: c, d (= 3), f}";

const NEWER: &str =
    "player 1 {Depends: libbluray2 (>= 2)} / libbluray2 1.4 / libbluray3 1.3 {Provides: libbluray4}";

static WALKS: &[Walked] = &[
    // Either package that provides the name keeps out another that is needed, which comes behind them.
    (
        "p",
        "a 1 {Conflicts: c; Provides: v} / b 1 {Depends: d; Provides: v} / c 1 / d 1 {Conflicts: c} / p 1 {Depends: v, c}",
        "p 1: broken why {p 1 Depends: v / >a 1 (provides v) / >a 1 Conflicts: c hits c 1 / >b 1 (provides v) / >b 1 Depends: d /
    >d 1 Conflicts: c hits c 1 / p 1 Depends: c / c 1}
stanzas 5, skipped 0, duplicates 0, asked 1, broken 1",
    ),
    // Eleven packages, each of which needs the next, and the last one that nobody has; of the names that differ in the number the first ten.
    (
        "n1",
        "n5 1 {Depends: n6} / n2 1 {Depends: n3} / n11 1 {Depends: n12} / n9 1 {Depends: n10} / n1 1 {Depends: n2} / n7 1 {Depends: n8} /
n3 1 {Depends: n4} / n10 1 {Depends: n11} / n4 1 {Depends: n5} / n8 1 {Depends: n9} / n6 1 {Depends: n7}",
        "n1 1: broken why {n1 1 Depends: n2 / n2 1 Depends: n3 / n3 1 Depends: n4 / n4 1 Depends: n5 / n5 1 Depends: n6 / n6 1 Depends: n7 /
    n7 1 Depends: n8 / n8 1 Depends: n9 / n9 1 Depends: n10 / n10 1 Depends: n11 /
    n11 1 Depends: n12 missing; similar: n5, n2, n11, n9, n1, n7, n3, n10, n4, n8}
stanzas 11, skipped 0, duplicates 0, asked 1, broken 1",
    ),
    // A package that is met by Provides has a line of its own, though the core speaks of it.
    (
        "app",
        PROVIDED,
        "app 1: broken why {app 1 Depends: v (= 1) / lib 2 (provides v (= 1)) / lib 2 Depends: gone missing}
stanzas 2, skipped 0, duplicates 0, asked 1, broken 1",
    ),
    // The third version is none of the walk.
    (
        "p",
        VERSIONS,
        "p 1: broken why {p 1 Depends: q (= 1) / q 1 / p 1 Depends: r / r 1 Depends: q (= 2) / q 2 / versions: q 1 (above), q 2 (above)}
stanzas 5, skipped 0, duplicates 0, asked 1, broken 1",
    ),
    // What is essential is told behind the package.
    (
        "x",
        ESSENTIAL,
        "x 1: broken why {x 1 Conflicts: e hits e 1 / essential: e / e 1}
stanzas 2, skipped 0, duplicates 0, asked 1, broken 1",
    ),
    // What comes near stands in the same line.
    (
        "a",
        MISSING,
        "a 1: broken why {a 1 Pre-Depends: b / b 1 Depends: c (>= 2) | d (>= 4) missing; present: c 1, e 1 (provides c, d (= 3))}
stanzas 4, skipped 0, duplicates 0, asked 1, broken 1",
    ),
    // What comes near, and behind it the names that are similar.
    (
        "player",
        NEWER,
        "player 1: broken why {player 1 Depends: libbluray2 (>= 2) missing; present: libbluray2 1.4; similar: libbluray3, libbluray4}
stanzas 3, skipped 0, duplicates 0, asked 1, broken 1",
    ),
    // Each need has similar names of its own.
    (
        "p",
        "p 1 {Depends: a | b | c} / a 1 {Depends: one1} / b 1 {Depends: two1} / c 1 {Depends: three1} / one2 1 {Provides: two2}",
        "p 1: broken why {p 1 Depends: a | b | c / >a 1 Depends: one1 missing; similar: one2 / >b 1 Depends: two1 missing; similar: two2 /
    >c 1 Depends: three1 missing}
stanzas 5, skipped 0, duplicates 0, asked 1, broken 1",
    ),
    // What was told is told once.
    (
        "p",
        "p 1 {Depends: a | b} / a 1 {Depends: s} / b 1 {Depends: s} / s 1 {Depends: gone}",
        "p 1: broken why {p 1 Depends: a | b / >a 1 Depends: s / >s 1 Depends: gone missing / >b 1 Depends: s (above)}
stanzas 4, skipped 0, duplicates 0, asked 1, broken 1",
    ),
    // Further in where it forks again; one of the packages was told there.
    (
        "p",
        "p 1 {Depends: a | b} / a 1 {Depends: b | c} / b 1 {Depends: gone} / c 1 {Conflicts: p}",
        "p 1: broken why {p 1 Depends: a | b / >a 1 Depends: b | c / >>b 1 Depends: gone missing / >>c 1 Conflicts: p hits p 1 (above) / >b 1 (above)}
stanzas 4, skipped 0, duplicates 0, asked 1, broken 1",
    ),
    // What provides a need is told with its entry.
    (
        "app",
        PROVIDED,
        r#"{"format":2,"options":["explain","checkonly","why"],"architecture":"amd64","report":[
{"package":"app","version":"1","architecture":"all","status":"broken","reasons":[
 {"kind":"depends","package":"app","version":"1","field":"Depends","relation":"v (= 1)",
 "met-by":[{"package":"lib","version":"2","provides":["v (= 1)"]}]},
 {"kind":"missing","package":"lib","version":"2","field":"Depends","relation":"gone","alternatives":["gone"],"present":[],"similar":[]}]}
],"stanzas":2,"skipped":0,"duplicates":0,"asked":1,"broken":1}"#,
    ),
    // All versions of the name.
    (
        "p",
        VERSIONS,
        r#"{"format":2,"options":["explain","checkonly","why"],"architecture":"amd64","report":[
{"package":"p","version":"1","architecture":"all","status":"broken","reasons":[
 {"kind":"depends","package":"p","version":"1","field":"Depends","relation":"q (= 1)","met-by":[{"package":"q","version":"1"}]},
 {"kind":"depends","package":"p","version":"1","field":"Depends","relation":"r","met-by":[{"package":"r","version":"1"}]},
 {"kind":"depends","package":"r","version":"1","field":"Depends","relation":"q (= 2)","met-by":[{"package":"q","version":"2"}]},
 {"kind":"versions","name":"q","versions":[{"package":"q","version":"1"},{"package":"q","version":"2"},{"package":"q","version":"3"}]}]}
],"stanzas":5,"skipped":0,"duplicates":0,"asked":1,"broken":1}"#,
    ),
    // Each alternative of a need that nothing meets, and what comes near.
    (
        "a",
        MISSING,
        r#"{"format":2,"options":["explain","checkonly","why"],"architecture":"amd64","report":[
{"package":"a","version":"1","architecture":"all","status":"broken","reasons":[
 {"kind":"depends","package":"a","version":"1","field":"Pre-Depends","relation":"b","met-by":[{"package":"b","version":"1"}]},
 {"kind":"missing","package":"b","version":"1","field":"Depends","relation":"c (>= 2) | d (>= 4)","alternatives":["c (>= 2)","d (>= 4)"],
 "present":[{"package":"c","version":"1"},{"package":"e","version":"1","provides":["c","d (= 3)"]}],"similar":[]}]}
],"stanzas":4,"skipped":0,"duplicates":0,"asked":1,"broken":1}"#,
    ),
    // The names that are similar.
    (
        "player",
        NEWER,
        r#"{"format":2,"options":["explain","checkonly","why"],"architecture":"amd64","report":[
{"package":"player","version":"1","architecture":"all","status":"broken","reasons":[
 {"kind":"missing","package":"player","version":"1","field":"Depends","relation":"libbluray2 (>= 2)","alternatives":["libbluray2 (>= 2)"],
 "present":[{"package":"libbluray2","version":"1.4"}],"similar":["libbluray3","libbluray4"]}]}
],"stanzas":3,"skipped":0,"duplicates":0,"asked":1,"broken":1}"#,
    ),
    // An essential name has no member more.
    (
        "x",
        ESSENTIAL,
        r#"{"format":2,"options":["explain","checkonly","why"],"architecture":"amd64","report":[
{"package":"x","version":"1","architecture":"all","status":"broken","reasons":[
 {"kind":"essential","name":"e"},
 {"kind":"conflict","package":"x","version":"1","field":"Conflicts","relation":"e","hits":[{"package":"e","version":"1"}]}]}
],"stanzas":2,"skipped":0,"duplicates":0,"asked":1,"broken":1}"#,
    ),
];

#[test]
fn walks(rt: HostRuntime) -> Result<(), Fail> {
    expect_walk(&rt, &EDITOR_WALK)?;
    expect_walk(&rt, &EDITOR_DOCUMENT)?;
    for walked in WALKS {
        expect_walk(&rt, walked)?;
    }
    Ok(())
}
