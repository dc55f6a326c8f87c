//! Indexes, and their reports.

/// A chain of three, whose end asks for a version that there is not.
pub const CHAIN: &[u8] = b"Package: a
Version: 1
Architecture: all
Depends: b

Package: b
Version: 1
Architecture: all
Pre-Depends: c (>= 2)

Package: c
Version: 1
Architecture: all
";

/// The report on the same, where all is asked for, in the lines of which `test_texts` makes a report.
pub const CHAIN_REPORT: &str =
    "a 1: broken {depends: a 1 Depends: b / missing: b 1 Pre-Depends: c (>= 2)}
b 1: broken {missing: b 1 Pre-Depends: c (>= 2)}
c 1: ok {c 1}
stanzas 3, skipped 0, duplicates 0, asked 3, broken 2";

/// Two packages, each of which needs one that is not there.
pub const INDEX: &[u8] = b"Package: a
Version: 1
Architecture: all
Depends: b

Package: c
Version: 1
Architecture: all
Depends: d
";

/// What `a` of `INDEX` needs, and one package more.
pub const BACKGROUND: &[u8] =
    b"Package: b\nVersion: 2\nArchitecture: all\n\nPackage: zz\nVersion: 1\nArchitecture: all\n";

/// The report on `INDEX` with `BACKGROUND` behind it, with explanations, in such lines.
pub const BACKED_REPORT: &str = "a 1: ok {a 1 / b 2}
c 1: broken {missing: c 1 Depends: d}
stanzas 4, skipped 0, duplicates 0, background 2, asked 2, broken 1";
