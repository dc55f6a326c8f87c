//! Rows of places, and answers where there is no row.

use crate::reading::Texts;
use crate::showing::{Case, Part, expect_each, expect_shown};
use std::alloc::{AllocError, Global};
use std::process::Abort;
use std::thread::Threads;

const MIXED: &str =
    "a 1 {Pre-Depends: v | w (>= 2), a; Depends: w | v, v | v, none, none | w:any (<< 2), w:i386 | v:amd64 (= 2), w:any;
Conflicts: a, v; Breaks: w (<< 2), none; Provides: a (= 7), v (= 2)} /
w 1 amd64 {Multi-Arch: allowed; Provides: v; Depends: a (= 7)} / v 3 / w 2 {Conflicts: v (>> 2), w:any; Depends: a (= 1) | a (>> 1) | w, v}";

/// Each atom is asked for by two packages, most of them in both roles.
const ASKED_TWICE: &str =
    "first 1 {Depends: v (>= 2), w:any, v, none; Conflicts: w:any, v (>= 2), v (<< 3)} / v 2 / v 3 / w 1 {Multi-Arch: allowed; Provides: v (= 2)} /
w 2 {Provides: none (= 1), v} / second 1 {Pre-Depends: v; Depends: v (<< 3), v (>= 2), w:any, none | w (= 2); Breaks: v (>= 2), v (= 3), w:any}";

/// A row that comes again has the same places, and an atom that stands in both roles a row in each.
static CASES: [Case; 2] = [
    Case {
        name: "rows and answers of one index",
        texts: Texts::Short(MIXED, "", true),
        parts: &[
            Part::AnswerRows,
            Part::Answers,
            Part::HitRows,
            Part::Packages,
            Part::Names,
        ],
        wanted: "need 0: [0, 1, 2, 3] | [0] | [0, 1, 2, 3] | [0, 1, 2] | [] | [1] | [0] | [1]
need 1: [0]
need 3: [0, 1, 3] | [0, 1, 2]
answers 0: [0, 1, 2, 3] | [0] | [0, 1, 2, 3] | [0, 1, 2] | [] | [1] | [0] | [1]
answers 1: [0]
answers 3: [0, 1, 3] | [0, 1, 2]
apart 0: [0] | [0, 1, 2] | [1] | []
apart 3: [2] | [1, 3]
0: a 1 all, name 0, versions [0], marked false
1: w 1 amd64, name 1, versions [1, 3], marked true
2: v 3 all, name 2, versions [2], marked false
3: w 2 all, name 1, versions [1, 3], marked false
name 0: a, places [0]
name 1: w, places [1, 3]
name 2: v, places [2]
",
    },
    Case {
        name: "rows asked for twice",
        texts: Texts::Short(ASKED_TWICE, "", true),
        parts: &[Part::AnswerRows, Part::HitRows],
        wanted: "need 0: [1, 2, 3] | [3] | [1, 2, 3, 4] | [4]
need 5: [1, 2, 3, 4] | [1, 3] | [1, 2, 3] | [3] | [4]
apart 0: [3, 4] | [1, 2, 3] | [1, 3]
apart 5: [1, 2, 3] | [2] | [3, 4]
",
    },
];

#[test]
fn rows_of_places(rt: HostRuntime) {
    expect_each(&rt, &CASES);
}

const ALONE_AND_BESIDE: &str = "Depends: v, v | asks, asks | asks\nConflicts: v\n";

/// Groups of several alternatives that the same packages answer.
pub const SHARED: &str =
    "Depends: w | v, v:any | asks, w (>= 2) | v (= 1) | w (<< 2), v | asks | w, asks | none\n";

/// What stands too often for a row to be made, and what doesn't.
const AGAIN: &str = "Depends: v, asks, w (= 3), asks\nConflicts: v, asks\nBreaks: v\n";

fn append_asking(out: &mut String, name: &str, asked: &str) -> Result<(), AllocError> {
    write!(
        out,
        "\nPackage: {name}\nVersion: 1\nArchitecture: all\n{asked}"
    )
}

fn append_provider(out: &mut String, number: u32) -> Result<(), AllocError> {
    write!(
        out,
        "\nPackage: p{number}\nVersion: 1\nArchitecture: all\nProvides: v, w (= 3)\n"
    )
}

/// A package that asks, packages that provide two names, and, where it is wanted, one more that asks.
pub fn providers(
    alloc: Global,
    asked: &str,
    count: u32,
    again: bool,
) -> Result<String, AllocError> {
    let mut out = String::new(alloc);
    append_asking(&mut out, "asks", asked)?;
    for number in 0..count {
        append_provider(&mut out, number)?;
    }
    if again {
        append_asking(&mut out, "again", asked)?;
    }
    Ok(out)
}

/// What is asked, of how many providers, whether twice, and what is seen.
struct Crowd {
    asked: &'static str,
    count: u32,
    again: bool,
    parts: &'static [Part],
    wanted: &'static str,
}

const ROWS: &[Part] = &[Part::Counts, Part::AnswerRows, Part::HitRows];

/// A row stands where no more than 256 packages meet what is asked for, however many have the name. Where more do, there is none for whoever asks,
/// also behind rows that come again.
static CROWDS: [Crowd; 6] = [
    Crowd {
        asked: ALONE_AND_BESIDE,
        count: 262,
        again: false,
        parts: ROWS,
        wanted: "packages 263, stanzas 263, skipped 0, duplicates 0
need 0: none | none | [0]
apart 0: none
",
    },
    Crowd {
        asked: ALONE_AND_BESIDE,
        count: 257,
        again: false,
        parts: ROWS,
        wanted: "packages 258, stanzas 258, skipped 0, duplicates 0
need 0: none | none | [0]
apart 0: none
",
    },
    Crowd {
        asked: ALONE_AND_BESIDE,
        count: 256,
        again: false,
        parts: ROWS,
        wanted: "packages 257, stanzas 257, skipped 0, duplicates 0
need 0: 256 from Some(1) | none | [0]
apart 0: 256 from Some(1)
",
    },
    Crowd {
        asked: ALONE_AND_BESIDE,
        count: 255,
        again: false,
        parts: ROWS,
        wanted: "packages 256, stanzas 256, skipped 0, duplicates 0
need 0: 255 from Some(1) | 256 from Some(0) | [0]
apart 0: 255 from Some(1)
",
    },
    Crowd {
        asked: SHARED,
        count: 262,
        again: false,
        parts: &[Part::Counts, Part::AnswerRows, Part::Answers],
        wanted: "packages 263, stanzas 263, skipped 0, duplicates 0
need 0: none | [0] | none | none | [0]
answers 0: 262 from Some(1) | [0] | 262 from Some(1) | 263 from Some(0) | [0]
",
    },
    Crowd {
        asked: AGAIN,
        count: 257,
        again: true,
        parts: ROWS,
        wanted: "packages 259, stanzas 259, skipped 0, duplicates 0
need 0: none | [0] | none | [0]
need 258: none | [0] | none | [0]
apart 0: none | [0] | none
apart 258: none | [0] | none
",
    },
];

fn expect_rows(rt: &(impl Abort + Threads + Sync + AllocGlobal), crowd: &Crowd) {
    let text = providers(rt.alloc(), crowd.asked, crowd.count, crowd.again).expect(rt, "no memory");
    expect_shown(
        rt,
        "rows of many packages",
        Texts::One(text.as_bytes(), true),
        crowd.parts,
        crowd.wanted,
    );
}

#[test]
fn rows_of_many_packages(rt: HostRuntime) {
    for crowd in &CROWDS {
        expect_rows(&rt, crowd);
    }
}

/// Groups and entries with bounds, of which few versions are within some; one of them is allowed for other architectures.
const BOUNDED: &str =
    "Depends: v (<< 3), v (<= 3), v (= 2.5-0), v (>= 299), v (>> 299), v:any (<< 4), v:armhf (<< 3), v (<< 3) | v (>> 299), v (<< 256), v (<< 257)
Conflicts: v (<< 2), v:any (<< 3), v (>> 300)
";

/// A package that asks, one that provides a version of the name, and one without, and many versions of the name.
fn versions(alloc: Global) -> Result<String, AllocError> {
    let mut out = String::new(alloc);
    append_asking(&mut out, "asks", BOUNDED)?;
    append_asking(&mut out, "provides", "Provides: v (= 2.5), v (= 2.05-0)\n")?;
    append_asking(&mut out, "unversioned", "Provides: v\n")?;
    for number in 1..301u32 {
        write!(
            out,
            "\nPackage: v\nVersion: {number}\nArchitecture: all\n{}",
            if number == 3 {
                "Multi-Arch: allowed\n"
            } else {
                ""
            }
        )?;
    }
    Ok(out)
}

/// Where a name has many candidates, those within a bound are the same as one by one.
#[test]
fn rows_of_many_versions(rt: HostRuntime) {
    let text = versions(rt.alloc()).expect(&rt, "no memory");
    expect_shown(
        &rt,
        "rows of many versions",
        Texts::One(text.as_bytes(), true),
        &[Part::Counts, Part::AnswerRows, Part::HitRows],
        "packages 303, stanzas 303, skipped 0, duplicates 0
need 0: [1, 3, 4] | [1, 3, 4, 5] | [1] | [301, 302] | [302] | [5] | [] | [1, 3, 4, 302] | 256 from Some(1) | none
apart 0: [3] | [1, 3, 4] | []
",
    );
}
