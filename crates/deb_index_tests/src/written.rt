//! What `test_texts` makes of what is written shortly.

use test_texts::{index_of, report_of};

const INDEX: &str = "Package: a
Version: 1
Architecture: all
Depends: b, c (>= 2)
Breaks: d

Package: b
Version: 2:1.0-1
Architecture: amd64
";

const REPORT: &str = "architecture: amd64
report:
 -
  package: a
  version: 1
  architecture: all
  status: broken
  reasons:
   - depends: a 1 Depends: b
   - missing: b 2 Depends: c | d
  also:
   - conflict: b 2 Conflicts: a
  further: 1
 -
  package: a
  version: 2
  architecture: all
  status: broken
  why:
   - a 2 Depends: x | y
     - x 1 Depends: z missing; present: z 1
       - y 1
 -
  package: b
  version: 2
  architecture: amd64
  status: ok
  installation-set:
   - a 3
   - b 2
 -
  package: c
  version: 1
  architecture: all
  status: ok
stanzas: 4
asked: 3
broken: 2
newly-broken: 2
mended:
 - d 1
 - e 1
gone:
causes: 1
 -
  packages: 2
  frees: 1
  reasons:
   - missing: c | d
  broken:
   - a 1
   - a 2
";

const SHORT_REPORT: &str =
    "a 1: broken {depends: a 1 Depends: b / missing: b 2 Depends: c | d} also {conflict: b 2 Conflicts: a} further 1
a 2: broken why {a 2 Depends: x | y /
    >x 1 Depends: z missing; present: z 1 / >>y 1}
b 2 amd64: ok {a 3 / b 2}
c 1: ok
stanzas 4, asked 3, broken 2, newly-broken 2, mended {d 1 / e 1}, gone {}, causes 1
cause 2 1 reasons {missing: c | d} broken {a 1 / a 2}";

/// Short forms, and texts that stand for themselves.
#[test]
fn texts_are_those_that_are_written(rt: HostRuntime) {
    let alloc = rt.alloc();
    for (written, text) in [
        (
            "a 1 {Depends: b, c (>= 2); Breaks: d}\n/ b 2:1.0-1 amd64",
            INDEX,
        ),
        (INDEX, INDEX),
        (" x", " x"),
        ("\n", "\n"),
        ("", ""),
    ] {
        let made = index_of(alloc, written).expect(&rt, "no memory");
        assert!(rt; made.as_str() == text, "{made}");
    }
    for (written, text) in [
        (SHORT_REPORT, REPORT),
        (REPORT, REPORT),
        ("{\"a\":[\n  1]\n}\n", "{\"a\":[1]\n}\n"),
    ] {
        let made = report_of(alloc, written).expect(&rt, "no memory");
        assert!(rt; made.as_str() == text, "{made}");
    }
}
