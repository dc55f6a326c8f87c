//! Texts that several workers read side by side, each a part of them.

use crate::backgrounds::{NEEDED, NEEDING, USED, USED_SHOWN};
use crate::reading::Texts;
use crate::showing::{Part, expect_shown, shown};
use crate::texts::{SPELLED, TWICE, VERSIONED, copies};
use std::alloc::{AllocError, Global};
use std::process::Abort;
use std::thread::Threads;

pub static WORKERS: [u32; 5] = [0, 1, 2, 3, 64];

pub const SEEN: [Part; 4] = [Part::Counts, Part::Foreground, Part::Packages, Part::Names];

static ROWS: [Part; 2] = [Part::AnswerRows, Part::HitRows];

/// With these numbers of workers the parts are these.
fn expect_by(
    rt: &(impl Abort + Threads + Sync + AllocGlobal),
    text: &[u8],
    background: &[u8],
    workers: &[u32],
    parts: &[Part],
    wanted: &str,
) {
    for count in workers {
        expect_shown(
            rt,
            "side by side",
            Texts::Parted(text, background, *count),
            parts,
            wanted,
        );
    }
}

/// With these numbers of workers the parts are what one call without any sees.
fn expect_same_by(
    rt: &(impl Abort + Threads + Sync + AllocGlobal),
    text: &[u8],
    background: &[u8],
    workers: &[u32],
    parts: &[Part],
) {
    let wanted = shown(rt, Texts::Both(text, background, true), parts).expect(rt, "good texts");
    expect_by(rt, text, background, workers, parts, wanted.as_str());
}

/// However many workers there are, what is seen is what one call without any sees.
fn expect_same(rt: &(impl Abort + Threads + Sync + AllocGlobal), text: &[u8], background: &[u8]) {
    expect_same_by(rt, text, background, &WORKERS, &SEEN);
}

/// A text with so many line feeds in front of it and so many behind it.
fn with_feeds(
    rt: &(impl Abort + AllocGlobal),
    before: usize,
    text: &[u8],
    behind: usize,
) -> Vec<u8> {
    let mut out = Vec::new(rt.alloc());
    for _ in 0..before {
        out.push(b'\n').expect(rt, "no memory");
    }
    out.extend_from_slice(text).expect(rt, "no memory");
    for _ in 0..behind {
        out.push(b'\n').expect(rt, "no memory");
    }
    out
}

/// The text with so many line feeds in front of it, and with so many behind it.
fn expect_same_with_feeds(
    rt: &(impl Abort + Threads + Sync + AllocGlobal),
    text: &[u8],
    count: usize,
) {
    let before = with_feeds(rt, count, text, 0);
    expect_same(rt, &before, b"");
    let behind = with_feeds(rt, 0, text, count);
    expect_same(rt, &behind, &before);
}

/// Eight line feeds more move the middle by four bytes, so each empty line is once the first one behind it.
#[test]
fn cut_at_each_empty_line(rt: HostRuntime) {
    for text in [VERSIONED, SPELLED, TWICE] {
        for eighth in 0..text.len() / 8 + 1 {
            expect_same_with_feeds(&rt, text, eighth * 8);
        }
    }
}

static FEW_LINES: [&[u8]; 6] = [
    b"",
    b"\n",
    b"\n\n\n\n\n\n\n\n",
    b" \n\t\n\n \n",
    b"#\n\n#",
    b"Package: a\nVersion: 1\nArchitecture: all",
];

#[test]
fn texts_of_few_lines(rt: HostRuntime) {
    for text in &FEW_LINES {
        expect_same(&rt, *text, b"");
        expect_same(&rt, b"", *text);
    }
}

const DUPLICATES: &str = "packages 1, stanzas 200, skipped 0, duplicates 199
foreground 1
0: a 1 all, name 0, versions [0], marked false
name 0: a, places [0]
";

#[test]
fn used_backgrounds_and_duplicates(rt: HostRuntime) {
    expect_by(&rt, NEEDING, NEEDED, &WORKERS, &USED, USED_SHOWN);
    let text = copies(&rt, 100);
    expect_by(&rt, &text, &text, &WORKERS, &SEEN, DUPLICATES);
}

/// Packages of which some ask for the one as far from the other end of the text, alone and beside itself, for a name that too many
/// provide for a row, and for one that a few do.
fn asking_across(alloc: Global, count: u32) -> Result<String, AllocError> {
    let mut text = String::new(alloc);
    for number in 0..count {
        write!(text, "Package: p{number}\nVersion: 1\nArchitecture: all\n")?;
        if number % 13 == 0 {
            text.push_str("Provides: many\n")?;
        } else if number % 500 == 1 {
            text.push_str("Provides: few\n")?;
        }
        if number % 200 == 0 {
            let other = count - 1 - number;
            write!(
                text,
                "Depends: p{other}, few, p{other} | few | p{number}, many, few | many\n"
            )?;
            write!(text, "Conflicts: p{other}, few, many, few (<< 1)\n")?;
        }
        text.push('\n')?;
    }
    Ok(text)
}

/// Each of four workers makes the rows of a thousand packages and more.
#[test]
fn rows_of_many_packages(rt: HostRuntime) {
    let text = asking_across(rt.alloc(), 4200).expect(&rt, "no memory");
    expect_same_by(&rt, text.as_bytes(), b"", &[1, 4], &ROWS);
}
