//! Groups that are needed, found from a set that breaks one group alone.

use crate::scripts::formula_of;
use sat_solve::Rotation;
use std::alloc::{AllocError, AllocGlobal};
use std::process::Abort;

/// 0 wants 1, and this 2, which excludes 0; and, of no matter for these, 3 or 4 is in.
static LINES: &str = "
    0: !0 1
    1: !1 2
    2.2 excludes 0 2
    3: 3 4";

/// Which groups are kept, a set, the group that it breaks, and the groups that are marked as needed where variable 0 is asked for.
static SETS: [([bool; 4], &[u32], u32, [bool; 4]); 4] = [
    // By turning 1 and then 2.
    (
        [true, true, true, true],
        &[0, 3],
        0,
        [true, true, true, false],
    ),
    // The other way.
    (
        [true, true, true, false],
        &[0, 1, 2],
        2,
        [true, true, true, false],
    ),
    // A set that breaks another kept group too, or lacks the variable, shows nothing.
    (
        [true, true, true, true],
        &[0],
        0,
        [false, false, false, false],
    ),
    (
        [true, true, true, true],
        &[3],
        0,
        [false, false, false, false],
    ),
];

fn finds(
    rt: &(impl Abort + AllocGlobal),
    keep: &[bool; 4],
    set: &[u32],
    group: u32,
    wanted: &[bool; 4],
) -> Result<bool, AllocError> {
    let formula = formula_of(rt, 5, 4, LINES)?;
    assert!(rt; formula.groups() == 4 && formula.vars() == 5);
    let mut rotation = Rotation::new(rt.alloc());
    let marks = formula.mark_needed(&mut rotation, keep, 0, set, group)?;
    Ok(marks == wanted.as_slice())
}

#[test]
fn needed_groups(rt: HostRuntime) {
    for (keep, set, group, wanted) in &SETS {
        let found = finds(&rt, keep, *set, *group, wanted).expect(&rt, "no memory");
        assert!(rt; found, "{set:?}");
    }
}
