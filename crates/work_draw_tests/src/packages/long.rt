//! Verdicts where texts are long: a chain of needs, and needs that more packages may answer than a row is made from.

use crate::packages::lent::expect_all;
use std::alloc::{AllocError, AllocGlobal, Global};

/// Adds one more stanza to those of a case.
fn append_package(
    case: &mut String,
    letter: char,
    number: u32,
    fields: &str,
) -> Result<(), AllocError> {
    write!(case, " / {letter}{number} 1 ")?;
    case.push('{')?;
    case.push_str(fields)?;
    case.push('}')
}

/// A chain of 300 packages, each of which needs the next one, and the last one what is missing; its first core has the need of each.
fn long_chain(alloc: Global) -> Result<String, AllocError> {
    let mut case = String::from_str(alloc, "long chain\nc0 1 {Depends: c1}")?;
    for number in 1..300u32 {
        let next = number.wrapping_add(1);
        let needed = format!(in alloc; "Depends: c{next}")?;
        append_package(&mut case, 'c', number, &needed)?;
    }
    case.push_str("\n0 core [Need(0, 0)")?;
    for number in 1..300u32 {
        write!(case, ", Need({number}, 0)")?;
    }
    case.push(']')?;
    Ok(case)
}

/// Three that ask, and 300 that provide what they ask for; a mark for each: all but the one that asks for a version, which is not provided.
fn many_providers(alloc: Global) -> Result<String, AllocError> {
    let asking = "many providers
a 1 {Depends: v} / b 1 {Depends: absent | v; Conflicts: p0} / c 1 {Depends: v (>= 2)}";
    let mut case = String::from_str(alloc, asking)?;
    for number in 0..300u32 {
        append_package(&mut case, 'p', number, "Provides: v")?;
    }
    let expected = "
0 set [0, 302]
1 set [1, 302]
2 core [Need(2, 0)]
marks 0 1 2 = [true, true, false";
    case.push_str(expected)?;
    for _ in 0..300u32 {
        case.push_str(", true")?;
    }
    case.push(']')?;
    Ok(case)
}

/// `a` and `c`, which need `v` with `any`, at 0 and 1, 260 packages that provide it, every 65th of them marked, at 66, 131, 196 and 261, and `y`, which each
/// of the marked needs, at 262.
fn many_marks(alloc: Global) -> Result<String, AllocError> {
    let asking = "many providers of which few are marked
a 1 {Depends: u:any | v:any} / c 1 {Depends: v:any; Conflicts: y}";
    let mut case = String::from_str(alloc, asking)?;
    for number in 0..260u32 {
        let fields = if number % 65 == 64 {
            "Provides: v; Depends: y; Multi-Arch: allowed"
        } else {
            "Provides: v, u"
        };
        append_package(&mut case, 'x', number, fields)?;
    }
    let expected = " / y 1
0 set [0, 261, 262]
0 closure [0, 66, 131, 196, 261, 262]
1 core [Need(1, 0), Apart(1, 0), Need(66, 0), Need(131, 0), Need(196, 0), Need(261, 0)]";
    case.push_str(expected)?;
    Ok(case)
}

#[test]
fn long_texts(rt: HostRuntime) {
    for case in [
        long_chain(rt.alloc()),
        many_providers(rt.alloc()),
        many_marks(rt.alloc()),
    ] {
        expect_all(&rt, &case.expect(&rt, "no memory"));
    }
}
