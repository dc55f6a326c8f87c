//! Cores, all causes, and what is seen to be installable, of small indexes.

use crate::packages::lent::expect_all;

/// First cores.
const CORES: &str = "chain of needs that ends nowhere
a 1 {Depends: c} / b 1 {Depends: d | c} / c 1 {Pre-Depends: d} / d 1 {Depends: absent (>= 2) | missing} / e 1 / f 1 {Depends: e | a}
0 core [Need(0, 0), Need(2, 0), Need(3, 0)]
1 core [Need(1, 0), Need(2, 0), Need(3, 0)]
2 core [Need(2, 0), Need(3, 0)]
3 core [Need(3, 0)]
4 set [4]
5 set [4, 5]
5 closure [0, 2, 3, 4, 5]

essential package that is hopeless
a 1 / e 1 {Essential: yes; Depends: absent} / f 1
0 core [Essential(1), Need(1, 0)]
1 core [Need(1, 0)]
2 core [Essential(1), Need(1, 0)]

need that nothing meets beside one that is met
a 1 {Depends: b | c, absent} / b 1 {Depends: c} / c 1
0 core [Need(0, 1)]
1 set [1, 2]
0 closure [0, 1, 2]

conflict with what both provide
a 1 {Provides: d; Conflicts: d} / b 1 {Provides: d; Depends: a}
0 set [0]
1 core [Apart(0, 0), Need(1, 0)]
1 closure [0, 1]

need of an earlier version of itself
a 1 / a 2 {Depends: a (<< 2)}
0 set [0]
1 core [Need(1, 0), Only(0)]
1 closure [0, 1]

none without an essential package
a 1 / e 1 {Essential: yes; Depends: absent}
0 core [Essential(1), Need(1, 0)]
1 core [Need(1, 0)]";

/// First cores along chains of needs, in which each package has one need that the others leave open.
const CHAINS: &str = "chain whose last keeps out its first
a 1 {Depends: b} / b 1 {Depends: c} / c 1 {Conflicts: a}
0 core [Need(0, 0), Need(1, 0), Apart(2, 0)]
1 set [1, 2]
2 set [2]

chain whose first keeps out its last
a 1 {Depends: b; Conflicts: c} / b 1 {Depends: c} / c 1 {Depends: absent}
0 core [Need(0, 0), Need(1, 0), Need(2, 0)]
1 core [Need(1, 0), Need(2, 0)]
2 core [Need(2, 0)]

chain to a package that lacks two needs
a 1 {Depends: b} / b 1 {Depends: absent, c, missing} / c 1
0 core [Need(0, 0), Need(1, 2)]
1 core [Need(1, 2)]
2 set [2]

chain to another version of its first
a 1 {Depends: b} / b 1 {Depends: a (>= 2)} / a 2 {Depends: absent}
0 core [Need(0, 0), Need(1, 0), Only(0)]
1 core [Need(1, 0), Need(2, 0)]
2 core [Need(2, 0)]";

/// The cores of all causes.
const ALL_CAUSES: &str = "one cause further down
a 1 {Depends: b} / b 1 {Depends: absent | missing}
0 cores [[Need(0, 0), Need(1, 0)]]
1 cores [[Need(1, 0)]]

package that lacks three things
a 1 {Pre-Depends: x; Depends: b, y, z} / b 1
0 cores [[Need(0, 3)], [Need(0, 2)], [Need(0, 0)]]
1 cores []

two ways to one conflict, which stands against both, so with it mended nothing does
a 1 {Depends: c, d; Conflicts: e} / c 1 {Depends: e} / d 1 {Depends: e} / e 1
0 cores [[Need(0, 1), Apart(0, 0), Need(2, 0)]]
1 cores []

later core with a need of an earlier one: it leads to both causes and stays, since a package meets it
a 1 {Depends: b} / b 1 {Depends: absent; Conflicts: a}
0 cores [[Need(0, 0), Apart(1, 0)], [Need(0, 0), Need(1, 0)]]
1 cores [[Need(1, 0)]]

causes of several constraints, all of which are taken out at once: two conflicts keep out two versions, and the need between them is met
a 1 {Depends: b; Conflicts: b (= 1), b (= 2); Breaks: base} / b 1 / b 2 / base 1 {Essential: yes}
0 cores [[Need(0, 0), Apart(0, 0), Apart(0, 1)], [Essential(2), Apart(0, 2)]]
1 cores []

need of another version
a 1 / a 2 {Depends: a (<< 2), absent}
0 cores []
1 cores [[Need(1, 1)], [Need(1, 0), Only(0)]]";

/// What is seen to be installable.
const INSTALLABLE: &str = "packages apart in two sets
a 1 {Conflicts: b} / b 1 / c 1 {Depends: a, b} / d 1 {Depends: b}
marks 0 1 2 3 = [true, true, false, true]

versions of one name in two sets
a 1 / a 2 / b 1 {Depends: a (>= 2)} / c 1 {Depends: b, a (<< 2)}
marks 0 1 2 3 = [true, true, true, false]

those that fit together be they asked or not
a 1 {Depends: absent | c} / b 1 / c 1
marks 0 = [true, true, true]
marks = [true, true, true]

second answer where the first leads nowhere
a 1 {Depends: b | d} / b 1 {Depends: c} / c 1 {Breaks: a} / d 1
marks 0 1 2 3 = [true, true, true, true]

essential package is in each set
a 1 {Conflicts: e} / e 1 {Essential: yes} / f 1
marks 0 2 = [false, true, true]

no set without an essential package
a 1 / e 1 {Essential: yes; Depends: absent}
marks 0 1 = [false, false]";

/// Verdicts and closures with the qualifier `any`.
const QUALIFIERS: &str = "any is not met without the mark
a 1 {Depends: python3:any} / b 1 {Depends: n:i386} / python3 3 / n 1
0 core [Need(0, 0)]
1 core [Need(1, 0)]
2 set [2]
3 set [3]
0 closure [0]
1 closure [1]

any is met by the mark
a 1 {Depends: python3:any} / b 1 {Depends: n:i386} / python3 3 {Multi-Arch: allowed} / n 1
0 set [0, 2]
1 core [Need(1, 0)]
2 set [2]
3 set [3]
0 closure [0, 2]
1 closure [1]

any of providers
a 1 {Depends: v:any} / q 1 {Provides: v; Multi-Arch: allowed} / p 1 {Provides: v; Multi-Arch: foreign} / c 1 {Depends: p; Conflicts: v:any}
0 set [0, 1]
1 set [1]
2 set [2]
3 core [Need(3, 0), Apart(3, 0)]
0 closure [0, 1]
3 closure [2, 3]

marked package in conflict: of the two that provide v it alone answers v:any, and it keeps b out; without any the other one does
a 1 {Depends: v:any, b} / m 1 {Provides: v; Conflicts: b; Multi-Arch: allowed} / s 1 {Provides: v; Multi-Arch: same} / b 1 / d 1 {Depends: v, b}
0 core [Need(0, 0), Need(0, 1), Apart(1, 0)]
0 closure [0, 1, 3]
4 set [2, 3, 4]
4 closure [1, 2, 3, 4]";

#[test]
fn cores_and_causes(rt: HostRuntime) {
    for cases in [CORES, CHAINS, ALL_CAUSES, INSTALLABLE, QUALIFIERS] {
        expect_all(&rt, cases);
    }
}
