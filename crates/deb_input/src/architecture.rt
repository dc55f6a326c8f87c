//! That an input is of another architecture.

use crate::lines::{shown, value_in};
use crate::naming::{Input, name_of, text_of};
use run_settings::Config;
use std::alloc::Global;

/// What Debian calls an architecture, and other words for it.
static WORDS: [&str; 7] = [
    "amd64 x64 x86-64",
    "arm64 aarch64",
    "armhf armv7l",
    "i386 i686 x86",
    "ppc64el ppc64le",
    "riscv64",
    "s390x",
];

/// What Debian calls an architecture that is called otherwise here, in other words or in large letters.
fn debian_word<'t>(arch: &str) -> Option<&'t str> {
    for words in &WORDS {
        if words.split(' ').any(|word| arch.eq_ignore_ascii_case(word)) {
            return words.split(' ').next().filter(|word| arch != *word);
        }
    }
    None
}

/// The architecture, beside `all`, that more than half of a text's other stanzas are of, where the first of them is.
fn most_of(text: &[u8]) -> Option<&[u8]> {
    let mut first = None;
    let (mut others, mut same) = (0u64, 0u64);
    for line in text.split(|b| *b == b'\n') {
        match value_in(line, b"Architecture:") {
            Some(value) if value != b"all".as_slice() => {
                first = first.or(Some(value));
                others = others.saturating_add(1);
                same = same.saturating_add(u64::from(first == Some(value)));
            }
            _ => {}
        }
    }
    first.filter(|_| same > others / 2).and_then(shown)
}

/// That an input has no stanza of the architecture that is asked for, and of which other one most are, by a text of it; none of them may be of `all`.
pub fn elsewhere_text(
    alloc: Global,
    config: &Config,
    input: Input,
    has_all: bool,
    text: &[u8],
) -> Option<Vec<u8>> {
    let most = most_of(text)?;
    let asked = config.arch.as_str();
    let name = name_of(input);
    let arch = asked.as_bytes();
    if most == arch {
        return None;
    }
    if input != Input::Index {
        return text_of(alloc, &[name, b" is of ", most, b", and not of ", arch]);
    }
    if let Some(word) = debian_word(asked) {
        let (word, todo) = (word.as_bytes(), b": give that by --arch");
        return text_of(alloc, &[b"Debian calls ", arch, b" ", word, todo]);
    }
    let none: &[u8] = if has_all {
        b"no stanza is of this architecture, and most others than of all are of "
    } else {
        b"no stanza is of this architecture or of all, and most are of "
    };
    text_of(alloc, &[none, most, b": give another by --arch"])
}
