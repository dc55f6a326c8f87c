//! Alternatives with the qualifier `any`, and the mark that they ask for.

use crate::reading::Texts;
use crate::showing::{Case, Part, expect_each, expect_shown};
use std::alloc::AllocError;
use std::process::Abort;
use std::thread::Threads;

const UNMARKED: &str = "a 1 {Depends: python3:any} / b 1 {Depends: n:i386} / python3 3 / n 1";

pub const MARKED: &str =
    "a 1 {Depends: python3:any} / b 1 {Depends: n:i386} / python3 3 {Multi-Arch: allowed} / n 1";

const PROVIDED: &str =
    "a 1 {Depends: v:any} / q 1 {Provides: v; Multi-Arch: allowed} / p 1 {Provides: v; Multi-Arch: foreign} / c 1 {Depends: p; Conflicts: v:any}";

const INTERPRETERS: &str = "python3:any, python3, python3:amd64, n:i386";

const INTERPRETER_PARTS: &[Part] = &[
    Part::Counts,
    Part::Satisfiers(INTERPRETERS),
    Part::NeedSatisfiers(INTERPRETERS),
];

const PROVIDERS: &str = "v:any, v, v:amd64";

static CASES: [Case; 3] = [
    Case {
        name: "an interpreter without the mark",
        texts: Texts::Short(UNMARKED, "", true),
        parts: INTERPRETER_PARTS,
        wanted: "packages 4, stanzas 4, skipped 0, duplicates 0
met: [2] | [2] | [2] | []
met in a group: [] | [2] | [2] | []
",
    },
    Case {
        name: "an interpreter of any architecture",
        texts: Texts::Short(MARKED, "", true),
        parts: INTERPRETER_PARTS,
        wanted: "packages 4, stanzas 4, skipped 0, duplicates 0
met: [2] | [2] | [2] | []
met in a group: [2] | [2] | [2] | []
",
    },
    Case {
        name: "providers with and without the mark",
        texts: Texts::Short(PROVIDED, "", true),
        parts: &[
            Part::Counts,
            Part::Satisfiers(PROVIDERS),
            Part::NeedSatisfiers(PROVIDERS),
            Part::AnswerRows,
            Part::HitRows,
        ],
        wanted: "packages 4, stanzas 4, skipped 0, duplicates 0
met: [1, 2] | [1, 2] | [1, 2]
met in a group: [1] | [1, 2] | [1, 2]
need 0: [1]
need 3: [2]
apart 3: [1, 2]
",
    },
];

#[test]
fn marks_and_what_asks_for_them(rt: HostRuntime) {
    expect_each(&rt, &CASES);
}

/// Fields, and whether each is the mark.
static FIELDS: [(&str, bool); 12] = [
    ("Multi-Arch: allowed", true),
    ("Multi-Arch: allowed ", true),
    ("MULTI-ARCH:\tallowed", true),
    ("Multi-Arch:\n allowed", true),
    ("Multi-Arch: same", false),
    ("Multi-Arch: foreign", false),
    ("Multi-Arch: Allowed", false),
    ("Multi-Arch: allowed, foreign", false),
    ("Multi-Arch: no", false),
    ("Multi-Arch:", false),
    ("Multi-Arch: ", false),
    ("MultiArch: allowed", false),
];

fn expect_mark(
    rt: &(impl Abort + Threads + Sync + AllocGlobal),
    field: &str,
    is_mark: bool,
) -> Result<(), AllocError> {
    let alloc = rt.alloc();
    let text = format!(in alloc; "{field}\nPackage: a\nVersion: 1\nArchitecture: all\n")?;
    let wanted = format!(in alloc; "0: a 1 all, name 0, versions [0], marked {is_mark}\n")?;
    let texts = Texts::One(text.as_bytes(), true);
    expect_shown(rt, field, texts, &[Part::Packages], &wanted);
    Ok(())
}

#[test]
fn values_of_the_mark(rt: HostRuntime) {
    for (field, is_mark) in &FIELDS {
        expect_mark(&rt, *field, *is_mark).expect(&rt, "no memory");
    }
}
