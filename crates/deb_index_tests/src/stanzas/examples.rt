//! Worked texts: how many stanzas they have, or why they are refused, and values of their fields.

use crate::stanzas::fields::{expect_values, has_next, outcome_of};
use deb_control::{ControlError, Reader};
use std::alloc::AllocError;
use std::process::Abort;

pub const ALTERNATIVES: &str = "Package: a
Version: 1
Architecture: all
Depends: b | c

Package: b
Version: 1
Architecture: all

Package: c
Version: 1
Architecture: all
";

static OUTCOMES: [(&[u8], Result<usize, ControlError>); 19] = [
    // what is refused
    (
        b"Package: a\nPackage: b\nno colon here\n",
        Err(ControlError::BadLine { stanza: 1 }),
    ),
    (
        b"Package: a\nVersion: 1\nArchitecture: all\npackage: a\n",
        Err(ControlError::RepeatedField { stanza: 1 }),
    ),
    (
        b"Package: a\n\nEmpty:\nEMPTY: x\n",
        Err(ControlError::RepeatedField { stanza: 2 }),
    ),
    // `ab`, `v` and `A1` have one slot, so these names are compared
    (b"ab: 1\nv: 2\nA1: 3\n", Ok(1)),
    (
        b"ab: 1\nv: 2\nAB: 3\n",
        Err(ControlError::RepeatedField { stanza: 1 }),
    ),
    (
        b"v: 1\nab: 2\nV: 3\n",
        Err(ControlError::RepeatedField { stanza: 1 }),
    ),
    // separators and comments
    (b"", Ok(0)),
    (b"# a\n\n# b", Ok(0)),
    (b"\n \t\n\nA: b\n\t \n# c\n \nD: e\n#f\nG: h\n\n# i", Ok(2)),
    (b"A: b\n\nx: y", Ok(2)),
    (b"A: b\n\n\n\nx: y\n z\n\nw: v\n", Ok(3)),
    (b"A: b\n\n#\nx: y\n#", Ok(2)),
    (
        b"A: b\n \r\nC: d\n\r\n",
        Err(ControlError::BadLine { stanza: 1 }),
    ),
    // odd names
    (
        b"Package: a\n \t\n# b\n\n-x: y",
        Err(ControlError::BadLine { stanza: 2 }),
    ),
    (b": v", Err(ControlError::BadLine { stanza: 1 })),
    (b"a b: v", Err(ControlError::BadLine { stanza: 1 })),
    (b"a\x7f: v", Err(ControlError::BadLine { stanza: 1 })),
    (b"\xc3\xa9: v", Err(ControlError::BadLine { stanza: 1 })),
    (b"!: v\n~#-: w", Ok(1)),
];

fn expect_outcome(
    rt: &(impl Abort + AllocGlobal),
    text: &[u8],
    outcome: Result<usize, ControlError>,
) {
    assert!(rt; outcome_of(rt, text) == outcome, "{text:?}");
}

#[test]
fn outcomes(rt: HostRuntime) {
    for (text, outcome) in &OUTCOMES {
        expect_outcome(&rt, *text, *outcome);
    }
}

#[test]
fn cut_texts(rt: HostRuntime) {
    let text = ALTERNATIVES.as_bytes();
    for len in 0..58 {
        let outcome = match len {
            0 => Ok(0),
            1..=7 | 12..=18 | 23..=34 | 41..=47 => Err(ControlError::BadLine { stanza: 1 }),
            57 => Err(ControlError::BadLine { stanza: 2 }),
            _ => Ok(1),
        };
        expect_outcome(&rt, text.get(..len).unwrap_or(text), outcome);
    }
}

fn expect_next(
    rt: &(impl Abort + AllocGlobal),
    reader: &mut Reader,
    next: Result<bool, ControlError>,
    count: u64,
) {
    assert!(rt; has_next(rt, reader) == next && reader.count() == count);
}

/// A refusal changes nothing. Numbers go on behind another text.
#[test]
fn refusals_of_readers(rt: HostRuntime) {
    let mut reader = Reader::new(b" x");
    expect_next(
        &rt,
        &mut reader,
        Err(ControlError::BadLine { stanza: 1 }),
        0,
    );
    expect_next(
        &rt,
        &mut reader,
        Err(ControlError::BadLine { stanza: 1 }),
        0,
    );
    let mut reader = Reader::behind(b"a: b\n\n x", 6);
    assert!(rt; reader.count() == 6);
    expect_next(&rt, &mut reader, Ok(true), 7);
    expect_next(
        &rt,
        &mut reader,
        Err(ControlError::BadLine { stanza: 8 }),
        7,
    );
}

type Value = (usize, &'static str, Option<&'static str>);

/// Texts, how many stanzas they have, and values of these. Each of one slot is found behind those of its slot, and `Ax`, which has that slot,
/// too, is absent; an empty one counts as absent.
static VALUES: [(&[u8], usize, &[Value]); 3] = [
    (
        b"ab: 1\nv: 2\nA1: 3\n",
        1,
        &[
            (0, "ab", Some("1")),
            (0, "V", Some("2")),
            (0, "a1", Some("3")),
            (0, "Ax", None),
        ],
    ),
    (
        b"a: x \r\nb:\t:: \n\nc:\n\td:e\t\n",
        2,
        &[
            (0, "A", Some("x \r")),
            (0, "b", Some("::")),
            (1, "c", Some("d:e")),
        ],
    ),
    (b"e: \n", 1, &[(0, "e", None)]),
];

#[test]
fn values(rt: HostRuntime) {
    for (text, count, wanted) in &VALUES {
        expect_values(&rt, *text, *count, *wanted);
    }
}

/// A stanza of 200 fields.
fn many_fields(rt: &impl AllocGlobal) -> Result<Vec<u8>, AllocError> {
    let mut text = Vec::new(rt.alloc());
    for first in b'a'..b'k' {
        for second in b'a'..b'u' {
            text.extend_from_slice(&[first, second, b':', b' ', b'v', b'\n'])?;
        }
    }
    Ok(text)
}

#[test]
fn many_fields_of_a_stanza(rt: HostRuntime) {
    let mut text = many_fields(&rt).expect(&rt, "no memory");
    expect_values(&rt, &text, 1, &[(0, "JT", Some("v")), (0, "JU", None)]);
    text.extend_from_slice(b"CD: v\n").expect(&rt, "no memory");
    expect_outcome(&rt, &text, Err(ControlError::RepeatedField { stanza: 1 }));
}
