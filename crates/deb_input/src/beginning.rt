//! What the first bytes of an input tell of it.

use crate::lines::has_field;
use crate::naming::{Input, name_of, option_of, text_of};
use std::alloc::Global;

/// What is likely wrong with an input, and what to do: advice, or a command that makes an index of its file FILE.
type Likely = (&'static [u8], &'static [u8]);

const TAKE_PACKAGES: &[u8] = b"take a file Packages";

const WEB_PAGE: Likely = (
    b"begins with <, as a web page does",
    b"see what was fetched",
);

const SIGNED: Likely = (b"is a signed text, as InRelease", TAKE_PACKAGES);

const BYTE_ORDER: Likely = (b"begins with a byte order mark", b"tail -c +4 FILE");

/// How files begin that are no index as they stand (RFC 1952 for gzip, RFC 8878 for zstd, else the format's own description).
static MARKS: [(&[u8], Likely); 8] = [
    (b"\x1f\x8b", (b"is compressed by gzip", b"zcat FILE")),
    (b"\xfd7zXZ\0", (b"is compressed by xz", b"xzcat FILE")),
    (b"BZh", (b"is compressed by bzip2", b"bzcat FILE")),
    (b"(\xb5/\xfd", (b"is compressed by zstd", b"zstdcat FILE")),
    (b"\x04\"M\x18", (b"is compressed by lz4", b"lz4cat FILE")),
    (b"\xef\xbb\xbf", BYTE_ORDER),
    (b"<", WEB_PAGE),
    (b"-----BEGIN", SIGNED),
];

/// Whether the first line ends with a carriage return and a line feed.
fn is_returned(front: &[u8]) -> bool {
    let mut lines = front.split(|b| *b == b'\n');
    match (lines.next(), lines.next()) {
        (Some(line), Some(_)) => line.ends_with(b"\r"),
        _ => false,
    }
}

/// What is likely wrong with an input that begins so: the first of these that holds.
fn likely(front: &[u8]) -> Option<Likely> {
    for (mark, likely) in &MARKS {
        if front.starts_with(mark) {
            return Some(*likely);
        }
    }
    if is_returned(front) {
        return Some((b"has lines that end with CR LF", b"tr -d '\\r' < FILE"));
    }
    let has = |name: &[u8]| has_field(front, name);
    if (has(b"Suite:") || has(b"Codename:") || has(b"SHA256:")) && !has(b"Package:") {
        return Some((b"is a Release file", TAKE_PACKAGES));
    }
    if (has(b"Directory:") || has(b"Binary:")) && !has(b"Filename:") {
        return Some((b"describes source packages", TAKE_PACKAGES));
    }
    None
}

/// What is likely wrong with an input that begins so, and what to do. Nothing of an index of packages, as archives have it.
pub fn beginning_text(alloc: Global, input: Input, front: &[u8]) -> Option<Vec<u8>> {
    let (what, todo) = likely(front)?;
    // What stands before and behind a command, so that the program reads what it writes.
    let (option, before, behind): (&[u8], &[u8], &[u8]) = match input {
        _ if !todo.ends_with(b"FILE") => (b"", b"", b""),
        Input::Index => (b"", b"", b" | debcheck .."),
        _ => (option_of(input), b"<(", b")"),
    };
    let name = name_of(input);
    text_of(
        alloc,
        &[name, b" ", what, b": ", option, before, todo, behind],
    )
}
