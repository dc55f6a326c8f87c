//! Versions and bounds.

use deb_relation::{Op, Version, VersionError, bound_holds};
use std::alloc::{AllocError, Global};
use std::cmp::Ordering;
use std::process::Abort;

/// How versions stand to each other; the last ones to themselves.
static ORDERED: [(&[u8], Ordering, &[u8]); 21] = [
    (b"1.0", Ordering::Greater, b"1.0~rc1"),
    (b"1.0~", Ordering::Greater, b"1.0~~"),
    (b"1.0+", Ordering::Greater, b"1.0a"),
    (b"1:0", Ordering::Greater, b"99"),
    (b"1-2-3", Ordering::Greater, b"1-2"),
    (b"1.a", Ordering::Greater, b"1.Z"),
    (b"1.10", Ordering::Greater, b"1.9"),
    (b"1-1", Ordering::Greater, b"1-0+b1"),
    (
        b"18446744073709551616",
        Ordering::Greater,
        b"18446744073709551615",
    ),
    (b"1:0", Ordering::Greater, b"0:18446744073709551616"),
    (
        b"1000000000000000000000000000000000000000",
        Ordering::Greater,
        b"999999999999999999999999999999999999999",
    ),
    (b"1.0", Ordering::Equal, b"1.0-0"),
    (b"1.0", Ordering::Equal, b"1.00"),
    (b"1.0", Ordering::Equal, b"0:1.0"),
    (b"1.a", Ordering::Equal, b"1.a0"),
    (
        b"0000000000000000000000000000000000000001",
        Ordering::Equal,
        b"1",
    ),
    (b"1:2:3", Ordering::Equal, b"1:2:3"),
    (b"0:1-2-3~x+y", Ordering::Equal, b"0:1-2-3~x+y"),
    (b"a.b", Ordering::Equal, b"a.b"),
    (b"-1-2", Ordering::Equal, b"-1-2"),
    (b"007:1", Ordering::Equal, b"007:1"),
];

static REFUSED: [(&[u8], VersionError); 14] = [
    (b"", VersionError::Upstream),
    (b"1:", VersionError::Upstream),
    (b"-1", VersionError::Upstream),
    (b"-", VersionError::Upstream),
    (b":1", VersionError::Epoch),
    (b"a:1", VersionError::Epoch),
    (b"1-2:3", VersionError::Epoch),
    (b"-:", VersionError::Epoch),
    (b"1-", VersionError::Revision),
    (b"1_2-", VersionError::Revision),
    (b"1_2", VersionError::Character),
    (b"1:2-3:4", VersionError::Character),
    (b"1 ", VersionError::Character),
    (b"1\xc3", VersionError::Character),
];

/// Whether two versions stand so to each other, compared both ways.
fn stand(left: &Version, ordering: Ordering, right: &Version) -> bool {
    left.compare(right) == ordering && right.compare(left) == ordering.reverse()
}

/// Whether two texts are versions, which keep them and stand so to each other.
fn are_ordered(
    alloc: Global,
    left: &[u8],
    ordering: Ordering,
    right: &[u8],
) -> Result<bool, VersionError> {
    let first = Version::parse(alloc, left)?;
    let second = Version::parse(alloc, right)?;
    Ok(first.text() == left && second.text() == right && stand(&first, ordering, &second))
}

fn expect_no_version(rt: &(impl Abort + AllocGlobal), text: &[u8], fault: &VersionError) {
    match Version::parse(rt.alloc(), text) {
        Ok(_) => assert!(rt; false, "{text:?} is read"),
        Err(found) => assert!(rt; found == *fault, "{text:?}"),
    }
}

/// Some texts are versions, which stand so to each other, and others are refused, each by its fault.
///
/// # Errors
///
/// Want of memory.
pub fn expect_each(rt: &(impl Abort + AllocGlobal)) -> Result<(), VersionError> {
    for (left, ordering, right) in &ORDERED {
        let ordered = are_ordered(rt.alloc(), *left, *ordering, *right)?;
        assert!(rt; ordered, "{left:?}, {right:?}");
    }
    for (text, fault) in &REFUSED {
        expect_no_version(rt, text, fault);
    }
    Ok(())
}

fn expect_ordered(rt: &(impl Abort + AllocGlobal), left: &[u8], ordering: Ordering, right: &[u8]) {
    let ordered = are_ordered(rt.alloc(), left, ordering, right).expect(rt, "versions");
    assert!(rt; ordered);
}

fn digits(alloc: Global, digit: u8) -> Result<Vec<u8>, AllocError> {
    vec![in alloc; digit; 100_000]
}

/// Zeros are none, and nines are above a power of ten of as many digits.
#[test]
fn orders_long_numbers(rt: HostRuntime) {
    let nines = digits(rt.alloc(), b'9').expect(&rt, "no memory");
    let mut zeros = digits(rt.alloc(), b'0').expect(&rt, "no memory");
    expect_ordered(&rt, &zeros, Ordering::Equal, b"0");
    if let Some(first) = zeros.first_mut() {
        *first = b'1';
    }
    expect_ordered(&rt, &nines, Ordering::Greater, &zeros);
}

/// Whether a version that is above a bound holds it, and one that is equal, and one that is below.
fn held(op: Op, low: &Version, same: &Version, high: &Version) -> [bool; 3] {
    [
        bound_holds(high, op, low),
        bound_holds(same, op, low),
        bound_holds(low, op, high),
    ]
}

/// Of these versions the first two are equal, and the third is above them.
fn expect_held(rt: &impl Abort, low: &Version, same: &Version, high: &Version) {
    for (op, wanted) in [
        (Op::Lt, [false, false, true]),
        (Op::Le, [false, true, true]),
        (Op::Eq, [false, true, false]),
        (Op::Ge, [true, true, false]),
        (Op::Gt, [true, false, false]),
    ] {
        assert!(rt; held(op, low, same, high) == wanted, "{op:?}");
    }
}

#[test]
fn holds_bounds(rt: HostRuntime) {
    let low = Version::parse(rt.alloc(), b"1").expect(&rt, "a version");
    let same = Version::parse(rt.alloc(), b"1-0").expect(&rt, "a version");
    let high = Version::parse(rt.alloc(), b"1-0.1").expect(&rt, "a version");
    expect_held(&rt, &low, &same, &high);
}
