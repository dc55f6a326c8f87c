//! The first bytes of inputs, and what they tell.

use crate::hints::text::expect_text;
use deb_input::{Input, beginning_text};

/// How inputs begin, and what is told of an index that does.
static BEGINNINGS: &[(&[u8], &str)] = &[
    (
        b"\x1f\x8b\x08\0",
        "the index is compressed by gzip: zcat FILE | debcheck ..",
    ),
    (
        b"\xfd7zXZ\0\0\x04",
        "the index is compressed by xz: xzcat FILE | debcheck ..",
    ),
    (
        b"BZh91AY&SY",
        "the index is compressed by bzip2: bzcat FILE | debcheck ..",
    ),
    (
        b"\x28\xb5\x2f\xfd\x24\x05",
        "the index is compressed by zstd: zstdcat FILE | debcheck ..",
    ),
    (
        b"\x04\x22\x4d\x18\x64\x40",
        "the index is compressed by lz4: lz4cat FILE | debcheck ..",
    ),
    (
        b"\xef\xbb\xbf<html>",
        "the index begins with a byte order mark: tail -c +4 FILE | debcheck ..",
    ),
    (
        b"<!DOCTYPE html>\r\n",
        "the index begins with <, as a web page does: see what was fetched",
    ),
    (
        b"-----BEGIN PGP SIGNED MESSAGE-----\n",
        "the index is a signed text, as InRelease: take a file Packages",
    ),
    (
        b"Suite: a\r\n",
        "the index has lines that end with CR LF: tr -d '\\r' < FILE | debcheck ..",
    ),
    (
        b"Origin: o\ncodename:sid\n\nPackage: a\n",
        "the index is a Release file: take a file Packages",
    ),
    (
        b"Package: a\nDirectory: pool\n\nFilename: a\n",
        "the index describes source packages: take a file Packages",
    ),
    (b"", ""),
    (b"\x1f", ""),
    (b"7zXZ\0", ""),
    (b"P\x1f\x8b", ""),
    (b" <html>", ""),
    (b"Package: a\r", ""),
    (b"\n\r\n", ""),
    (b"Package: a\nSHA256: 0\n", ""),
    (b"Origin: o\n \t\nSuite: sid\n", ""),
    (b" Suite: sid\n", ""),
    (b"Suite : sid\nSHA256-History:\n", ""),
    (b"Package: a\nDirectory: pool\nFilename: a\n", ""),
    (b"Package: a\n\nBinary: a\n", ""),
    (b"# a comment\nPackage: a\nVersion: 1\n", ""),
];

#[test]
fn of_an_index(rt: HostRuntime) {
    for (front, wanted) in BEGINNINGS {
        let text = beginning_text(rt.alloc(), Input::Index, front);
        expect_text(&rt, "a beginning", text, *wanted);
    }
}

static INPUTS: &[(Input, &str)] = &[
    (
        Input::Background,
        "the background is compressed by xz: --bg <(xzcat FILE)",
    ),
    (
        Input::Earlier,
        "the earlier index is compressed by xz: --since <(xzcat FILE)",
    ),
    (
        Input::Names,
        "the file of names is compressed by xz: --checkonly @<(xzcat FILE)",
    ),
];

#[test]
fn of_other_inputs(rt: HostRuntime) {
    for (input, wanted) in INPUTS {
        let text = beginning_text(rt.alloc(), *input, b"\xfd7zXZ\0");
        expect_text(&rt, "a beginning", text, *wanted);
    }
}
