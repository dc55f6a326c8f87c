//! A text that is read piece by piece.

ghost use Rattle.std.specs.Prelude.{◌<◌};

use deb_index::{Index, IndexError};
use deb_input::{Input, RunFault, finish, read_text, reading_text};
use run_settings::Config;
use std::alloc::{AllocError, Global};
use std::process::Abort;
use std::thread::Threads;
use test_devices::{Feed, source_of};

/// Stanzas of two architectures, with a comment, a duplicate, and some empty lines too many.
pub const TEXT: &[u8] = b"
Package: a
Version: 1
Architecture: all

Package: b
Version: 2
# A comment.
Architecture: amd64
Depends: a



Package: c
Version: 1
Architecture: i386

Package: a
Version: 1
Architecture: all
 
Package: d
Version: 1:2-3
Architecture: all

Package: e
Version: 1
Architecture: all";

/// Its packages, each with its version.
static PACKAGES: [(&str, &str); 4] = [("a", "1"), ("b", "2"), ("d", "1:2-3"), ("e", "1")];

/// Whether an index has these packages, and so many stanzas, some of other architectures and duplicates.
fn has(index: &Index, packages: &[(&str, &str)], counts: [u32; 3]) -> bool {
    for place in 0..index.len() {
        let package = index.package(place);
        let (name, version) = (package.name.as_slice(), package.version.text());
        match packages.get(place as usize) {
            Some(wanted) if wanted.0.as_bytes() == name && wanted.1.as_bytes() == version => {}
            _ => return false,
        }
    }
    index.len() as usize == packages.len()
        && [index.stanzas(), index.skipped(), index.duplicates()] == counts
}

/// What is told of the text with a fault.
const HINT: &[u8] = b"stanza 2 of the index is of the package b";

/// Words for what reading a text came to, and what was told of it.
fn told_by(outcome: &Result<Index, RunFault>, hint: &[u8]) -> &'static str {
    match outcome {
        Ok(index) if has(index, &PACKAGES, [6, 1, 1]) => "the text",
        Ok(index) if has(index, &PACKAGES[..1], [1, 0, 0]) => "one package",
        Ok(_) => "another index",
        Err(RunFault::Memory) => "no memory",
        Err(RunFault::Read) => "failed",
        Err(RunFault::Index(IndexError::MissingField { stanza: 2 })) if hint == HINT => {
            "missing field in stanza 2"
        }
        Err(_) => "another fault",
    }
}

/// What reading all that is left in pieces of at least so many bytes, with nothing behind it, comes to.
pub fn comes_to(
    rt: &(impl Threads + Sync + AllocGlobal),
    reader: &mut Feed<'_>,
    piece: usize,
) -> &'static str
    requires { 0 < piece }
{
    let Ok(config) = Config::usual(rt.alloc()) else {
        return "no memory";
    };
    let (outcome, last) = match read_text(rt, rt.alloc(), &config, reader, piece) {
        Ok(read) => {
            let outcome = finish(rt, rt.alloc(), &config, read.outcome, &[]);
            (outcome, read.last)
        }
        Err(fault) => (Err(fault), Vec::new(rt.alloc())),
    };
    let hint = reading_text(rt.alloc(), &config, Input::Index, &outcome, &last, &[]);
    drop(config);
    let told = told_by(&outcome, &hint.unwrap_or(last));
    drop(outcome);
    told
}

/// How many bytes a piece has at least: from one to more than the text has.
const PIECES: [usize; 12] = [1, 2, 3, 5, 8, 13, 21, 34, 55, 89, 144, 1000];

/// The reader, read to its end in pieces of at least so many bytes, comes to this.
fn expect(
    rt: &(impl Abort + Threads + Sync + AllocGlobal),
    mut reader: Feed<'_>,
    piece: usize,
    wanted: &str,
) {
    let told = piece > 0 && comes_to(rt, &mut reader, piece) == wanted;
    assert!(rt; told && reader.rest.is_empty(), "pieces of {piece} bytes");
}

#[test]
fn pieces_of_any_size_make_the_index_of_the_text(rt: HostRuntime) {
    for piece in PIECES {
        for step in [1, 7, 1000] {
            expect(&rt, source_of(TEXT, step), piece, "the text");
        }
    }
}

#[test]
fn a_reader_fails_behind_each_byte(rt: HostRuntime) {
    for count in 0..=TEXT.len() {
        let mut reader = source_of(&TEXT[..count], 1);
        reader.fails = true;
        let told = comes_to(&rt, &mut reader, 8);
        assert!(rt;
            told == "failed" && reader.reads as usize == count + 1,
            "behind {count} bytes"
        );
    }
}

/// The second stanza has a fault, and so has the third.
const FAULTY: &[u8] =
    b"Package: a\nVersion: 1\nArchitecture: all\n\nPackage: b\nVersion: 1\n\n x\n\nPackage: c\n";

/// The first fault is told, and whose stanza has it, in whatever piece that stands, once the text was read to its end; that a read failed goes before it.
#[test]
fn the_first_fault_is_told_behind_the_whole_text(rt: HostRuntime) {
    for piece in 1..=FAULTY.len() + 1 {
        expect(
            &rt,
            source_of(FAULTY, 3),
            piece,
            "missing field in stanza 2",
        );
        let mut torn = source_of(FAULTY, 3);
        torn.fails = true;
        expect(&rt, torn, piece, "failed");
    }
}

/// One stanza of more than a thousand lines.
fn long_stanza(alloc: Global) -> Result<String, AllocError> {
    let mut text = String::new(alloc);
    text.push_str("Package: a\nVersion: 1\nArchitecture: all\nDescription: long\n")?;
    for _ in 0..1000 {
        text.push_str(" line\n")?;
    }
    Ok(text)
}

/// As much again is read before each try to cut it: so there are few tries.
fn is_read_in_few_steps(rt: &(impl Threads + Sync + AllocGlobal), text: &[u8]) -> bool {
    let mut reader = source_of(text, 1_000_000);
    comes_to(rt, &mut reader, 1) == "one package" && reader.reads <= 16
}

#[test]
fn a_text_without_an_empty_line_is_read_in_few_steps(rt: HostRuntime) {
    match long_stanza(rt.alloc()) {
        Ok(text) => assert!(rt; is_read_in_few_steps(&rt, text.as_bytes())),
        Err(_) => panic!(rt; "no memory"),
    }
}
