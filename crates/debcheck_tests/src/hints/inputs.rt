//! What indexes tell that are refused, or are of another architecture.

use crate::hints::text::expect_text;
use deb_index::{Index, IndexError};
use deb_input::{Input, elsewhere_text, name_text, stanza_text};
use run_settings::Config;
use std::process::Abort;

fn config_of(rt: &(impl Abort + AllocGlobal), arch: &str) -> Config {
    let mut config = Config::usual(rt.alloc()).expect(rt, "no memory");
    config.arch = String::from_str(rt.alloc(), arch).expect(rt, "no memory");
    config
}

/// Texts, and what is told of the first stanza in them that has a fault, which is the 26th of the whole.
static STANZAS: &[(&str, &str)] = &[
    (
        "Package: a\n",
        "stanza 26 of the earlier index is of the package a",
    ),
    (
        "Package: y\nVersion: 1\nArchitecture: all\n\n#\n\nVersion: 1\n# Package: x\npackage:\t z \t\nPackages: b\n\nPackage: c\n",
        "stanza 26 of the earlier index is of the package z",
    ),
    (
        "Package: a\r\nVersion: 1\r\n\r\nPackage: b\r\n",
        "stanza 26 of the earlier index is of the package a, and has a second Package: is there no empty line between two indexes?",
    ),
    (
        "Package: a\nVersion: 1\nPackage: b\nPackage: c\n",
        "stanza 26 of the earlier index is of the package a, and has a second Package: is there no empty line between two indexes?",
    ),
    (
        "Package: a\nVersion: 1\nArchitecture: all\n\nPackage: b\nVers",
        "stanza 26 of the earlier index is of the package b, and its last line has no end: was the file cut off?",
    ),
    (
        "Package: 0123456789012345678901234567890123456789012345678901234567890\n",
        "stanza 26 of the earlier index is of the package 012345678901234567890123456789012345678901234567890123456789",
    ),
    ("Version: 1\n\nPackage: a\n", ""),
    ("Package:\n", ""),
    ("Package : a\n", ""),
    ("Package: a\u{1b}[2J\n", ""),
    ("Package: \u{e4}\n", ""),
    ("", ""),
];

#[test]
fn of_stanzas(rt: HostRuntime) {
    let config = config_of(&rt, "amd64");
    for (piece, wanted) in STANZAS {
        let fault = IndexError::BadLine { stanza: 26 };
        let piece_bytes = piece.as_bytes();
        let text = stanza_text(rt.alloc(), &config, Input::Earlier, &fault, piece_bytes);
        expect_text(&rt, *piece, text, *wanted);
    }
}

/// What is asked for, an input, a text of it, and what is told.
static ARCHITECTURES: &[(&str, Input, &str, &str)] = &[
    (
        "amd64",
        Input::Index,
        "architecture:\tarm64 \r\n",
        "no stanza is of this architecture or of all, and most are of arm64: give another by --arch",
    ),
    (
        "amd46",
        Input::Index,
        "Architecture: amd64\nArchitecture: all\nArchitecture: all\n",
        "no stanza is of this architecture or of all, and most are of amd64: give another by --arch",
    ),
    (
        "AMD64",
        Input::Index,
        "Architecture: amd64\n",
        "Debian calls AMD64 amd64: give that by --arch",
    ),
    (
        "aarch64",
        Input::Index,
        "Architecture: arm64\n",
        "Debian calls aarch64 arm64: give that by --arch",
    ),
    (
        "amd64",
        Input::Background,
        "Architecture: arm64\n",
        "the background is of arm64, and not of amd64",
    ),
    (
        "amd64",
        Input::Earlier,
        "Architecture: arm64\n",
        "the earlier index is of arm64, and not of amd64",
    ),
    ("amd64", Input::Index, "", ""),
    ("amd64", Input::Index, "Architecture: all\n", ""),
    ("amd64", Input::Index, "Architecture: amd64\n", ""),
    (
        "amd64",
        Input::Index,
        "Architecture: a\nArchitecture: b\n",
        "",
    ),
    ("amd64", Input::Index, "Architecture:\n", ""),
    ("amd64", Input::Index, "Architecture: \u{1b}[2J\n", ""),
    (
        "amd64",
        Input::Index,
        " Architecture: a\n#Architecture: a\n",
        "",
    ),
];

#[test]
fn of_architectures(rt: HostRuntime) {
    for (arch, input, of, wanted) in ARCHITECTURES {
        let config = config_of(&rt, *arch);
        let text = elsewhere_text(rt.alloc(), &config, *input, false, of.as_bytes());
        expect_text(&rt, *of, text, *wanted);
    }
}

const NAMED: &[u8] = b"Package: abcd
Version: 1
Architecture: all
Provides: virtual
";

/// Names, and what is told of them.
static NAMES: &[(&str, &str)] = &[
    (
        "virtual",
        "no package is called virtual, but abcd provides it",
    ),
    ("abce", "no package is called abce, but one is called abcd"),
    ("abc", "no package is called abc, but one is called abcd"),
    ("bcd", "no package is called bcd, but one is called abcd"),
    (
        "abxcd",
        "no package is called abxcd, but one is called abcd",
    ),
    ("acbd", "no package is called acbd, but one is called abcd"),
    ("bacd", "no package is called bacd, but one is called abcd"),
    ("ab", ""),
    ("abef", ""),
    ("axbyc", ""),
    ("dcba", ""),
];

#[test]
fn of_names(rt: HostRuntime) {
    match Index::read(rt.alloc(), NAMED, "amd64", true) {
        Ok(index) => {
            for (name, wanted) in NAMES {
                let text = name_text(rt.alloc(), &index, name.as_bytes());
                expect_text(&rt, *name, text, *wanted);
            }
            drop(index);
        }
        Err(_) => panic!(rt; "the index is refused"),
    }
}
