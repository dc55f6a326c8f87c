//! Worked examples: what is counted, essential names, constraints, and fields in the order of the list.

use crate::reading::Texts;
use crate::showing::{Case, Part, expect_each};
use crate::texts::SPELLED;

const ESSENTIALS: &str = "x 1 / base 1 {ESSENTIAL: yes} / base 2 / y 1 {Essential: Yes}";

const MIXED: &str =
    "p 1 {Breaks: b1 (< 1); Depends: d1 | d2; Pre-Depends: e1, e2 (> 2); Conflicts: c1}";

const LACKING: &str = "a 1 {Depends: x, y}";

const BASE: &str = "base 1 {Essential: yes} / x 1 {Conflicts: base}";

/// Two names that std's hasher makes one number of, which took a search through seven billion names; and one that only some package provides.
const ONE_HASH: &str =
    "78aeb984bf2f7359 1 {Provides: v} / 6e32b12eb57e2885 1 {Provides: 78aeb984bf2f7359} / 6e32b12eb57e2885 2";

static CASES: [Case; 9] = [
    Case {
        name: "names of one hash",
        texts: Texts::Short(ONE_HASH, "", true),
        parts: &[
            Part::Names,
            Part::Name("78aeb984bf2f7359"),
            Part::Name("6e32b12eb57e2885"),
            Part::Name("v"),
        ],
        wanted: "name 0: 78aeb984bf2f7359, places [0]
name 1: 6e32b12eb57e2885, places [1, 2]
78aeb984bf2f7359: number Some(0), places [0], provided [(1, 0)]
6e32b12eb57e2885: number Some(1), places [1, 2], provided []
v: number None, places [], provided [(0, 0)]
",
    },
    Case {
        name: "duplicates and skipped stanzas",
        texts: Texts::One(SPELLED, true),
        parts: &[
            Part::Counts,
            Part::Architecture,
            Part::Packages,
            Part::Names,
            Part::Name("a"),
            Part::Name("A"),
        ],
        wanted: "packages 2, stanzas 4, skipped 1, duplicates 1
architecture amd64
0: a 1.0 amd64, name 0, versions [0, 1], marked false
1: a 1.00 amd64, name 0, versions [0, 1], marked false
name 0: a, places [0, 1]
a: number Some(0), places [0, 1], provided []
A: number None, places [], provided []
",
    },
    Case {
        name: "essential names that count",
        texts: Texts::Short(ESSENTIALS, "", true),
        parts: &[Part::EssentialNames, Part::Name("base")],
        wanted: "essential [1]\nbase: number Some(1), places [1, 2], provided []\n",
    },
    Case {
        name: "essential names that do not count",
        texts: Texts::Short(ESSENTIALS, "", false),
        parts: &[Part::EssentialNames, Part::Name("base")],
        wanted: "essential []\nbase: number Some(1), places [1, 2], provided []\n",
    },
    Case {
        name: "constraints of what is lacking",
        texts: Texts::Short(LACKING, "", true),
        parts: &[Part::Constraints],
        wanted: "[Need(0, 0), Need(0, 1), Only(0)]\n",
    },
    Case {
        name: "constraints with an essential name",
        texts: Texts::Short(BASE, "", true),
        parts: &[Part::Constraints],
        wanted: "[Essential(0), Apart(1, 0), Only(0), Only(1)]\n",
    },
    Case {
        name: "constraints without the essential name",
        texts: Texts::Short(BASE, "", false),
        parts: &[Part::Constraints],
        wanted: "[Apart(1, 0), Only(0), Only(1)]\n",
    },
    Case {
        name: "constraints of no package",
        texts: Texts::One(b"", true),
        parts: &[Part::Constraints],
        wanted: "[]\n",
    },
    Case {
        name: "fields in the order of the list",
        texts: Texts::Short(MIXED, "", true),
        parts: &[Part::Groups],
        wanted: "Pre-Depends 2, Depends 1, Conflicts 1, Breaks 1
need 0: e1 | e2 | d1 d2
apart 0: c1 | b1
",
    },
];

#[test]
fn worked_examples(rt: HostRuntime) {
    expect_each(&rt, &CASES);
}
