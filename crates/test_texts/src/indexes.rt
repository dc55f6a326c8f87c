//! The text of an index.

use std::alloc::{AllocError, Global};

/// Adds the stanza of `NAME VERSION ARCHITECTURE {FIELD: VALUE; FIELD: VALUE}`; the architecture is `all` where none is written.
fn append_stanza(out: &mut String, written: &str) -> Result<(), AllocError> {
    let (head, rest) = written.split_once('{').unwrap_or((written, ""));
    let (fields, _) = rest.split_once('}').unwrap_or((rest, ""));
    let mut words = head.split_whitespace();
    let (name, version) = (words.next().unwrap_or(""), words.next().unwrap_or(""));
    let architecture = words.next().unwrap_or("all");
    write!(
        out,
        "Package: {name}\nVersion: {version}\nArchitecture: {architecture}\n"
    )?;
    for field in fields.split(';') {
        if !field.trim().is_empty() {
            write!(out, "{}\n", field.trim())?;
        }
    }
    Ok(())
}

/// Adds the text of an index: `a 1 {Depends: b; Breaks: c} / b 2 amd64` are two stanzas, with an empty line between them. What begins as a stanza does, or
/// with a blank or a line feed, is the text itself.
///
/// # Errors
///
/// Want of memory.
pub fn append_index(out: &mut String, written: &str) -> Result<(), AllocError> {
    if written.starts_with("Package:") || written.starts_with([' ', '\n']) || written.is_empty() {
        return out.push_str(written);
    }
    let mut is_first = true;
    for stanza in written.split('/') {
        if !is_first {
            out.push('\n')?;
        }
        append_stanza(out, stanza)?;
        is_first = false;
    }
    Ok(())
}

/// The same as a text of its own.
///
/// # Errors
///
/// Want of memory.
pub fn index_of(alloc: Global, written: &str) -> Result<String, AllocError> {
    let mut out = String::new(alloc);
    append_index(&mut out, written)?;
    Ok(out)
}
