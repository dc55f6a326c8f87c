//! All cores of packages by several workers, compared with answers that were found by hand.

use crate::calls::{Call, holds};
use deb_verdict::{Cores, Wanted};

/// Packages of none, one, one, two, one and three causes.
const CAUSES: &[u8] = b"Package: sound
Version: 1
Architecture: all

Package: over
Version: 1
Architecture: all
Depends: sound, lacks

Package: lacks
Version: 1
Architecture: all
Depends: absent | missing

Package: two
Version: 1
Architecture: all
Depends: rival

Package: rival
Version: 1
Architecture: all
Depends: absent
Conflicts: two

Package: three
Version: 1
Architecture: all
Pre-Depends: x
Depends: sound, y, z
";

/// What is told of each place of `CAUSES`.
const OF_CAUSES: &[&str] = &[
    "ok",
    "broken [[Need(1, 1), Need(2, 0)]]",
    "broken [[Need(2, 0)]]",
    "broken [[Need(3, 0), Apart(4, 0)], [Need(3, 0), Need(4, 0)]]",
    "broken [[Need(4, 0)]]",
    "broken [[Need(5, 3)], [Need(5, 2)], [Need(5, 0)]]",
];

/// Two conflicts keep out both versions of what one package needs, and a third an essential one.
const SEVERAL: &[u8] = b"Package: a
Version: 1
Architecture: all
Depends: b
Conflicts: b (= 1), b (= 2)
Breaks: base

Package: b
Version: 1
Architecture: all

Package: b
Version: 2
Architecture: all

Package: base
Version: 1
Architecture: all
Essential: yes
";

const OF_SEVERAL: &[&str] = &[
    "broken [[Need(0, 0), Apart(0, 0), Apart(0, 1)], [Essential(2), Apart(0, 2)]]",
    "ok",
    "ok",
    "ok",
];

/// A hundred places, which go through an index of six packages now forwards, now backwards.
const MANY: &[u32] = &[
    0, 1, 2, 2, 1, 0, 5, 1, 2, 3, 1, 0, 5, 4, 2, 3, 4, 0, 5, 4, 3, 3, 4, 5, 5, 4, 3, 2, 4, 5, 0, 4,
    3, 2, 1, 5, 0, 1, 3, 2, 1, 0, 0, 1, 2, 2, 1, 0, 5, 1, 2, 3, 1, 0, 5, 4, 2, 3, 4, 0, 5, 4, 3, 3,
    4, 5, 5, 4, 3, 2, 4, 5, 0, 4, 3, 2, 1, 5, 0, 1, 3, 2, 1, 0, 0, 1, 2, 2, 1, 0, 5, 1, 2, 3, 1, 0,
    5, 4, 2, 3,
];

/// What is told of it, the text of an index, its places that are asked, and what is written of each of its places.
static CASES: [(&str, &[u8], &[u32], &[&str]); 8] = [
    ("no place", CAUSES, &[], OF_CAUSES),
    ("one place", CAUSES, &[3], OF_CAUSES),
    ("every place", CAUSES, &[0, 1, 2, 3, 4, 5], OF_CAUSES),
    (
        "places in any order",
        CAUSES,
        &[5, 0, 3, 2, 4, 1],
        OF_CAUSES,
    ),
    ("repeated places", CAUSES, &[5, 5, 0, 3, 5, 0, 3], OF_CAUSES),
    ("many places", CAUSES, MANY, OF_CAUSES),
    ("no package", b"", &[], &[]),
    ("several constraints", SEVERAL, &[2, 0, 3, 1, 0], OF_SEVERAL),
];

const CORES: Wanted = Wanted {
    sets: false,
    cores: Cores::All,
};

#[test]
fn each_crew_finds_all_cores(rt: HostRuntime) {
    for (name, text, asked, written) in &CASES {
        for workers in [1, 2, 3, 5, 64] {
            let call = Call::Told(workers, CORES, *written);
            assert!(rt;
                holds(&rt, *text, *asked, call),
                "{name}, {workers} workers"
            );
        }
    }
}
