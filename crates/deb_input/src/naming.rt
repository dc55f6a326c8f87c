//! The inputs that hints tell of, and the texts of lines.

use std::alloc::Global;

/// Which of its inputs a program tells of.
#[derive(Clone, Copy, Debug, PartialEq, Eq)]
pub enum Input {
    /// What it reads from standard input.
    Index,
    /// What it reads from the file of `--bg`.
    Background,
    /// What it reads from the file of `--since`.
    Earlier,
    /// What it reads from the file of `--checkonly`.
    Names,
}

/// What an input is called.
pub(crate) fn name_of<'t>(input: Input) -> &'t [u8] {
    match input {
        Input::Index => b"the index",
        Input::Background => b"the background",
        Input::Earlier => b"the earlier index",
        Input::Names => b"the file of names",
    }
}

/// The option that names its file, with what stands between the two; the index has none.
pub fn option_of<'t>(input: Input) -> &'t [u8] {
    match input {
        Input::Index => b"",
        Input::Background => b"--bg ",
        Input::Earlier => b"--since ",
        Input::Names => b"--checkonly @",
    }
}

/// A text of these parts; none where there is no memory for it.
pub fn text_of(alloc: Global, parts: &[&[u8]]) -> Option<Vec<u8>> {
    parts.concat(alloc).ok()
}
