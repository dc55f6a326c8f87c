//! Verdicts, closures and cores of small indexes, compared with answers that were found by hand.

use crate::packages::expected::ALL;
use crate::packages::lent::{expect_all, expect_each};

/// Verdicts and closures.
const VERDICTS: &str = "alternatives
a 1 {Depends: b | c} / b 1 / c 1
0 set [0, 2]
1 set [1]
2 set [2]
0 closure [0, 1, 2]
2 closure [2]

first core lacks the earlier
a 1 {Depends: x, y}
0 core [Need(0, 1)]
marks 0 = [false]

missing further down
a 1 {Depends: b} / b 1 {Depends: c (>= 2)} / c 1
0 core [Need(0, 0), Need(1, 0)]
1 core [Need(1, 0)]
2 set [2]
0 closure [0, 1]

mail agents
m1 1 {Provides: mail-agent; Conflicts: mail-agent} / m2 1 {Provides: mail-agent; Conflicts: mail-agent} / u 1 {Depends: m1, m2}
0 set [0]
1 set [1]
2 core [Apart(1, 0), Need(2, 0), Need(2, 1)]

conflict between dependencies
a 1 {Depends: b, c} / b 1 {Conflicts: c} / c 1
0 core [Need(0, 0), Need(0, 1), Apart(1, 0)]
1 set [1]
2 set [2]

versioned provides
foo 1 {Depends: bar (>= 1.0)} / bar 0.9 / bar-plus 1 {Provides: bar (= 1.0)}
0 set [0, 2]
1 set [1]
2 set [2]

unversioned provides
foo 1 {Depends: bar (>= 1.0)} / bar 0.9 / bar-plus 1 {Provides: bar}
0 core [Need(0, 0)]
1 set [1]
2 set [2]

two versions
n 1 / n 2 / a 1 {Depends: n (= 1), b} / b 1 {Depends: n (= 2)}
0 set [0]
1 set [1]
2 core [Need(2, 0), Need(2, 1), Need(3, 0), Only(0)]
3 set [1, 3]

essential conflict
base 1 {Essential: yes} / x 1 {Conflicts: base}
0 set [0]
1 core [Essential(0), Apart(1, 0)]
1 closure [0, 1]

essential packages in conflict
e1 1 {Essential: yes; Conflicts: e2} / e2 1 {Essential: yes} / z 1
0 core [Essential(1), Apart(0, 0)]
1 core [Essential(0), Apart(0, 0)]
2 core [Essential(0), Essential(1), Apart(0, 0)]

own dependency
s 1 {Depends: s, v; Provides: v}
0 set [0]

pre depends and breaks
a 1 {Depends: c; Pre-Depends: b} / b 1 / c 1 {Breaks: b (<< 2)}
0 core [Need(0, 0), Need(0, 1), Apart(2, 0)]
2 set [2]
0 closure [0, 1, 2]

sound and broken packages: d is broken without a search, c is not
a 1 {Conflicts: b} / b 1 / c 1 {Depends: a, b} / d 1 {Depends: absent}
0 set [0]
1 set [1]
2 core [Apart(0, 0), Need(2, 0), Need(2, 1)]
3 core [Need(3, 0)]";

/// First healthy sets where several answer a need.
const FIRST_SETS: &str = "alternatives of an essential package
a 1 {Depends: b | c} / b 1 {Pre-Depends: d | f} / c 1 {Depends: b | e} / d 1 / e 1 {Essential: yes; Depends: a | h} / f 1 / h 1
0 set [0, 2, 4]
1 set [1, 4, 5, 6]
2 set [2, 4, 6]
3 set [3, 4, 6]
4 set [4, 6]
0 closure [0, 1, 2, 3, 4, 5, 6]
3 closure [0, 1, 2, 3, 4, 5, 6]

all versions of an essential name
a 1 / n 1 {Essential: yes; Depends: b | c} / n 2 / b 1 / c 1
0 set [0, 2]
1 set [1, 4]
2 set [2]
3 set [2, 3]
0 closure [0, 1, 2, 3, 4]
2 closure [1, 2, 3, 4]

needs with one answer
a 1 {Depends: b, c | d} / b 1 {Depends: e} / c 1 {Depends: b} / d 1 / e 1 {Pre-Depends: c} / g 1 {Essential: yes; Depends: h | i} / h 1 / i 1 {Depends: d}
0 set [0, 1, 2, 4, 5, 6]
2 set [1, 2, 4, 5, 6]
3 set [3, 5, 7]
5 set [5, 6]
7 set [3, 5, 7]
0 closure [0, 1, 2, 3, 4, 5, 6, 7]
7 closure [3, 5, 6, 7]

what essential packages need
e 1 {Essential: yes; Depends: l, l | n} / l 1 {Conflicts: absent, l} / n 1 {Depends: e, o} / o 1 {Depends: l (>= 1); Conflicts: n} / q 1 {Depends: absent} / n 2
0 set [0, 1]
1 set [0, 1]
2 core [Need(2, 1), Apart(3, 0)]
3 set [0, 1, 3]
4 core [Need(4, 0)]
5 set [0, 1, 5]
0 closure [0, 1, 2, 3, 5]
4 closure [0, 1, 2, 3, 4, 5]

answers that cannot be had
a 2 {Depends: c} / b 1 {Depends: d} / a 1 {Provides: c} / e 1 {Provides: c, d; Depends: absent} / f 1 {Provides: c, d}
0 set [0, 4]
1 set [1, 4]
2 set [2]
3 core [Need(3, 0)]
0 closure [0, 2, 3, 4]
1 closure [1, 3, 4]

hopeless alternative beside a good one
a 1 {Depends: b | d} / b 1 {Depends: c} / c 1 {Depends: absent} / d 1
0 set [0, 3]
1 core [Need(1, 0), Need(2, 0)]
2 core [Need(2, 0)]
0 closure [0, 1, 2, 3]

answer between two that lead nowhere
a 1 {Depends: b | c | d} / b 1 {Conflicts: e} / c 1 / d 1 {Conflicts: e} / e 1 {Essential: yes}
0 set [0, 2, 4]
1 core [Essential(4), Apart(1, 0)]
2 set [2, 4]
4 set [4]

answer that a later need rules out: a needs another answer of b | c than d does
a 1 {Depends: b | c, d | f} / b 1 / c 1 / d 1 {Conflicts: b} / f 1 {Conflicts: b}
0 set [0, 2, 4]
3 set [3]
4 set [4]";

#[test]
fn verdicts_and_closures(rt: HostRuntime) {
    expect_all(&rt, VERDICTS);
    expect_all(&rt, FIRST_SETS);
}

const WITHOUT_ESSENTIAL_NAMES: &str = "no essential conflict
base 1 {Essential: yes} / x 1 {Conflicts: base}
1 set [1]
1 closure [1]";

#[test]
fn essential_names_that_do_not_count(rt: HostRuntime) {
    let compared = expect_each(&rt, false, &ALL, WITHOUT_ESSENTIAL_NAMES);
    compared.expect(&rt, "no memory");
}

/// Two indexes by turns in one workspace. At last a set of the other index comes before an agent that is broken and one that is forced.
const BY_TURNS: &str = "all agents
base 1 {Essential: yes; Depends: m1 | m2, lib} / m1 1 {Provides: v; Conflicts: v} / m2 1 {Provides: v; Conflicts: v} / u 1 {Depends: m1, m2} / lib 1
0 set [0, 2, 4]
1 set [0, 1, 4]
2 set [0, 2, 4]
3 core [Apart(2, 0), Need(3, 0), Need(3, 1)]
4 set [0, 2, 4]

all versions
n 1 / n 2 / a 1 {Depends: n (= 1), b} / b 1 {Depends: n (= 2)}
0 set [0]
1 set [1]
2 core [Need(2, 0), Need(2, 1), Need(3, 0), Only(0)]
3 set [1, 3]

all agents
base 1 {Essential: yes; Depends: m1 | m2, lib} / m1 1 {Provides: v; Conflicts: v} / m2 1 {Provides: v; Conflicts: v} / u 1 {Depends: m1, m2} / lib 1
0 set [0, 2, 4]
1 set [0, 1, 4]
2 set [0, 2, 4]
3 core [Apart(2, 0), Need(3, 0), Need(3, 1)]
4 set [0, 2, 4]

the last version
n 1 / n 2 / a 1 {Depends: n (= 1), b} / b 1 {Depends: n (= 2)}
3 set [1, 3]

the last agents
base 1 {Essential: yes; Depends: m1 | m2, lib} / m1 1 {Provides: v; Conflicts: v} / m2 1 {Provides: v; Conflicts: v} / u 1 {Depends: m1, m2} / lib 1
3 core [Apart(2, 0), Need(3, 0), Need(3, 1)]
1 set [0, 1, 4]";

#[test]
fn one_workspace_for_all(rt: HostRuntime) {
    expect_all(&rt, BY_TURNS);
}
