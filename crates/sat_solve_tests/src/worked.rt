//! Worked formulas, one of them with a long list.

use crate::scripts::{follow, formula_of};
use sat_solve::Formula;
use std::alloc::{AllocError, Global};

/// How many variables and groups a formula has, and the lines that are followed with it.
static WORKED: [(u32, u32, &str); 8] = [
    // Three variables and two groups.
    (
        3,
        2,
        "
            0: !0 1 2
            1: !2
            11 0 = 0 1
            10 0 = 0 2
            1: !1
            11 0 = none",
    ),
    // An empty clause fails where it is kept.
    (
        2,
        1,
        "
            0:
            1 0 = none
            0 0 = 0",
    ),
    // A formula starts over.
    // Nothing is left of an empty clause before it.
    (
        3,
        2,
        "
            11 2 = 2
            1: !2 1
            11 2 = 1 2",
    ),
    // Two versions of one name.
    (
        4,
        4,
        "
            0: !2 0
            1: !2 3
            2: !3 1
            3: !0 !1
            1111 2 = none
            1111 3 = 1 3
            1110 2 = 0 1 2 3
            0111 2 = 1 2 3",
    ),
    // Each pigeon has a hole.
    // Variable 3p + h says that pigeon p has hole h. No two of four pigeons share one of three holes; group 1 has what the fourth pigeon wants.
    (
        13,
        2,
        "
            0: 0 1 2
            0: 3 4 5
            0: 6 7 8
            1: 9 10 11
            0: !3 !0\n 0: !6 !0\n 0: !6 !3\n 0: !9 !0\n 0: !9 !3\n 0: !9 !6
            0: !4 !1\n 0: !7 !1\n 0: !7 !4\n 0: !10 !1\n 0: !10 !4\n 0: !10 !7
            0: !5 !2\n 0: !8 !2\n 0: !8 !5\n 0: !11 !2\n 0: !11 !5\n 0: !11 !8
            10 12 = 2 4 6 12
            11 12 = none",
    ),
    // The variables 0 and 1 are excluded where variable 3 is in, in group 1.
    (
        4,
        2,
        "
            1.3 excludes 0 1 3
            0: 0 1 2
            0: 0 1 !2
            11 3 = none
            10 3 = 1 3
            11 0 = 0
            0: !1 3
            0: !0 1
            11 0 = none",
    ),
    // Owners that all are in share a list that is out.
    (
        7,
        1,
        "
            0.0 0.1 0.2 excludes 3 4 5
            0: !6 0
            0: !6 1
            0: !6 2
            1 6 = 0 1 2 6
            0: 5
            1 6 = none",
    ),
    // A conflict that rests on few decisions.
    // 30 pairs that are free, and then a contradiction on two variables. A search that goes back by one decision at a time
    // tries each way to choose among the pairs, more than 2^30 of them.
    (
        63,
        2,
        "
            0: 0 1\n 0: 2 3\n 0: 4 5\n 0: 6 7\n 0: 8 9\n 0: 10 11
            0: 12 13\n 0: 14 15\n 0: 16 17\n 0: 18 19\n 0: 20 21\n 0: 22 23
            0: 24 25\n 0: 26 27\n 0: 28 29\n 0: 30 31\n 0: 32 33\n 0: 34 35
            0: 36 37\n 0: 38 39\n 0: 40 41\n 0: 42 43\n 0: 44 45\n 0: 46 47
            0: 48 49\n 0: 50 51\n 0: 52 53\n 0: 54 55\n 0: 56 57\n 0: 58 59
            1: 60 61
            1: 60 !61
            1: !60 61
            1: !60 !61
            11 62 = none
            10 62 = 1 3 5 7 9 11 13 15 17 19 21 23 25 27 29 31 33 35 37 39 41 43 45 47 49 51 53 55 57 59 62",
    ),
];

/// Each in one formula, which starts over for it.
#[test]
fn worked_formulas(rt: HostRuntime) {
    let mut formula = Formula::new(rt.alloc(), 0, 0).expect(&rt, "no memory");
    for (vars, groups, lines) in &WORKED {
        formula.restart(*vars, *groups);
        follow(&rt, &mut formula, *lines).expect(&rt, "no memory");
    }
}

/// The variables below 20,000 exclude each other, and a clause wants one of them.
fn crowd(alloc: Global) -> Result<String, AllocError> {
    let mut owners = String::new(alloc);
    let mut list = String::new(alloc);
    for var in 0..20_000 {
        write!(owners, "0.{var} ")?;
        write!(list, " {var}")?;
    }
    format!(in alloc; "{owners}excludes{list}\n0:{list}\n")
}

#[test]
fn twenty_thousand_in_one_list(rt: HostRuntime) {
    let crowd = crowd(rt.alloc()).expect(&rt, "no memory");
    let mut formula = formula_of(&rt, 20_001, 1, &crowd).expect(&rt, "no memory");
    let lines = "
        0: 10000 19999
        1 20000 = 19999 20000
        1 10000 = 10000
        0: 0
        1 20000 = none";
    follow(&rt, &mut formula, lines).expect(&rt, "no memory");
}
