//! The words of a process.

ghost use Rattle.std.specs.Io.{WritesAtMost};

use crate::words::faults::fault_in_words;
use command_line::{LineFault, words_of};
use std::alloc::{AllocError, Global};
use std::env::{Env, FillError};
use std::process::Abort;

/// An environment with these words, the first of which is the program's name.
#[derive(Drop)]
struct Spoken<'a> {
    alloc: Global,
    words: &'a [&'a [u8]],
}

impl Alloc for Spoken<'_> {
    type A = Global;

    fn alloc(&self) -> Global {
        self.alloc
    }
}

/// Copies a text to the front of the buffer.
fn fill(text: &[u8], buf: &mut [u8]) -> Result<usize, FillError>
    ensures { WritesAtMost result buf.new }
{
    if buf.len() < text.len() {
        return Err(FillError::TooLong);
    }
    buf[..text.len()].copy_from_slice(text);
    Ok(text.len())
}

impl Env for Spoken<'_> {
    fn arg(&self, i: usize, buf: &mut [u8]) -> Result<usize, FillError> {
        match self.words.get(i) {
            Some(word) => fill(word, buf),
            None => Err(FillError::NotPresent),
        }
    }

    fn var(&self, _name: &str, _buf: &mut [u8]) -> Result<usize, FillError> {
        Err(FillError::NotPresent)
    }

    fn var_at(&self, _i: usize, _buf: &mut [u8]) -> Result<usize, FillError> {
        Err(FillError::NotPresent)
    }
}

/// The words, with a `|` before each; a refusal is its text.
fn in_words(alloc: Global, words: &Result<Vec<String>, LineFault>) -> Result<String, AllocError> {
    match words {
        Ok(words) => in_one_line(alloc, words),
        Err(fault) => fault_in_words(alloc, fault),
    }
}

fn in_one_line(alloc: Global, words: &[String]) -> Result<String, AllocError> {
    let mut line = String::new(alloc);
    for word in words {
        write!(line, "|{word}")?;
    }
    Ok(line)
}

/// The words behind the program's name are these, or are refused so.
fn expect_words(rt: &(impl Abort + AllocGlobal), words: &[&[u8]], wanted: &str) {
    let alloc = rt.alloc();
    let words = words_of(&Spoken { alloc, words });
    let told = in_words(alloc, &words).expect(rt, "no memory");
    assert!(rt; told.as_str() == wanted, "{told}");
}

/// Words of a process, and those of its command line; the last are no text, and are refused.
const WORDS: [(&[&[u8]], &str); 5] = [
    (&[], ""),
    (&[b"debcheck"], ""),
    (&[b"debcheck", b"--arch", b"amd64"], "|--arch|amd64"),
    (&[b"debcheck", b"debcheck", b""], "|debcheck|"),
    (
        &[b"debcheck", b"--arch", b"\xff"],
        "status 64, output: , errors: error: a word of the command line isn't UTF-8\n",
    ),
];

#[test]
fn the_name_of_the_program_is_no_word(rt: HostRuntime) {
    for (words, wanted) in WORDS {
        expect_words(&rt, words, wanted);
    }
}
