//! The packages that meet an atom, by the tables and by each package asked in turn.

use crate::reading::Texts;
use crate::showing::{Case, Part, expect_each};
use crate::texts::{TWICE, VERSIONED};

const UNVERSIONED: &str = "foo 1 {Depends: bar (>= 1.0)} / bar 0.9 / bar-plus 1 {Provides: bar}";

const MAIL_AGENTS: &str =
    "m1 1 {Provides: mail-agent; Conflicts: mail-agent} / m2 1 {Provides: mail-agent; Conflicts: mail-agent} / u 1 {Depends: m1, m2}";

const PROVIDED: &str = "v 1 {Provides: v (= 2), v} / w 1 {Provides: v}";

/// One package provides each of these names, some twice, some without a version, and some for another architecture.
const MANY_NAMES: &str =
    "p 5 {Provides: n1 (= 1), n2, n3 (= 3), n1 (= 2), n4:i386 (= 4), n2 (= 2), n5:any, p (= 9);
Depends: n1 (= 1), n1 (= 2), n1 (= 3), n2, n2 (= 2), n2 (= 3), n3 (>> 2), n3 (<< 3), n4, n5, n5 (= 5), p (= 9), p (= 5), p (= 1), n1:any;
Conflicts: n1:any, n3:i386} /
n1 3 {Provides: n3}";

const NAMES: &str =
    "n1 (= 1), n1 (= 2), n1 (= 3), n1 (= 4), n1, n2, n2 (= 2), n2 (= 3), n3 (>> 2), n3 (<< 3), n3, n4, n5, p (= 9), p (= 5), p (= 1), n1:any, n3:i386";

static CASES: [Case; 6] = [
    Case {
        name: "a version that is provided",
        texts: Texts::One(VERSIONED, true),
        parts: &[Part::Satisfiers("bar (>= 1.0), bar, bar (<< 1.0), Bar")],
        wanted: "met: [2] | [1, 2] | [1] | []
",
    },
    Case {
        name: "no version is provided",
        texts: Texts::Short(UNVERSIONED, "", true),
        parts: &[Part::Satisfiers("bar (>= 1.0), bar")],
        wanted: "met: [] | [1, 2]
",
    },
    Case {
        name: "several provides",
        texts: Texts::One(TWICE, true),
        parts: &[
            Part::Name("v"),
            Part::Name("w"),
            Part::Satisfiers(
                "v, v:any, v:amd64 (>> 2), v (= 1), v (= 2), v (= 6), v:all, v:i386, x, V",
            ),
        ],
        wanted: "v: number Some(0), places [0, 2], provided [(0, 0), (0, 1), (1, 1), (1, 2)]
w: number Some(1), places [1], provided []
met: [0, 1, 2] | [0, 1, 2] | [1, 2] | [0] | [0] | [] | [] | [] | [1] | []
",
    },
    Case {
        name: "a name that is provided twice",
        texts: Texts::Short(PROVIDED, "", true),
        parts: &[
            Part::Name("v"),
            Part::Name("w"),
            Part::Satisfiers("v, v (= 1), v (= 2), v (= 3), v:i386"),
        ],
        wanted: "v: number Some(0), places [0], provided [(0, 0), (0, 1), (1, 0)]
w: number Some(1), places [1], provided []
met: [0, 1] | [0] | [0] | [] | []
",
    },
    Case {
        name: "mail agents",
        texts: Texts::Short(MAIL_AGENTS, "", true),
        parts: &[
            Part::Name("mail-agent"),
            Part::Satisfiers("mail-agent, mail-agent (= 1)"),
        ],
        wanted: "mail-agent: number None, places [], provided [(0, 0), (1, 0)]
met: [0, 1] | []
",
    },
    Case {
        name: "many names of one package",
        texts: Texts::Short(MANY_NAMES, "", true),
        parts: &[
            Part::Name("n1"),
            Part::Satisfiers(NAMES),
            Part::AnswerRows,
            Part::HitRows,
        ],
        wanted: "n1: number Some(1), places [1], provided [(0, 0), (0, 3)]
met: [0] | [0] | [1] | [] | [0, 1] | [0] | [0] | [] | [0] | [] | [0, 1] | [] | [0] | [0] | [0] | [] | [0, 1] | []
need 0: [0] | [0] | [1] | [0] | [0] | [] | [0] | [] | [] | [0] | [] | [0] | [0] | [] | []
apart 0: [0, 1] | []
",
    },
];

#[test]
fn satisfiers(rt: HostRuntime) {
    expect_each(&rt, &CASES);
}
