//! A text cut behind each of its bytes.

use crate::example::{EMPTY_REPORT, example_of, gives_on};
use devices::Std;
use test_texts::index_of;

/// The answer, and its status.
fn wanted(len: usize) -> (&'static str, u8) {
    match len {
        0 => (EMPTY_REPORT, 0),
        1..=7 | 12..=18 | 23..=34 | 41..=47 => ("debcheck: stanza 1: bad line", 65),
        8..=11 | 19..=22 | 35 | 36 => ("debcheck: stanza 1: missing field", 65),
        37 | 38 => ("stanzas 1, skipped 1, duplicates 0, asked 0, broken 0", 0),
        39 | 40 | 48 | 49 => (
            "a 1: ok {a 1}
stanzas 1, skipped 0, duplicates 0, asked 1, broken 0",
            0,
        ),
        50 | 51 => (
            "a 1: broken {missing: a 1 Depends: b}
stanzas 1, skipped 0, duplicates 0, asked 1, broken 1",
            1,
        ),
        52 | 53 => ("debcheck: stanza 1: bad relation in Depends", 65),
        54..=56 => (
            "a 1: broken {missing: a 1 Depends: b | c}
stanzas 1, skipped 0, duplicates 0, asked 1, broken 1",
            1,
        ),
        _ => ("debcheck: stanza 2: bad line", 65),
    }
}

#[test]
fn each_cut_has_its_answer(rt: HostRuntime) {
    let text = index_of(rt.alloc(), "a 1 {Depends: b | c} / b 1 / c 1").expect(&rt, "no memory");
    for len in 0..58 {
        let (answer, status) = wanted(len);
        let example = example_of("--arch amd64 --explain", status, "", answer);
        let front = text.as_str().get(..len).unwrap_or("a longer text");
        let mut reader = Std::new(front.as_bytes());
        assert!(rt;
            gives_on(&rt, rt.alloc(), "", &mut reader, &example),
            "the report, the fault or the status of {len} bytes"
        );
    }
}
