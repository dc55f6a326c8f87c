//! The report on an index, in lines.

use std::alloc::{AllocError, Global};

/// Adds the list of `KEY {ITEM / ITEM}`, which stands so far in; each `>` before an item sets it one step further in.
fn append_list(out: &mut String, key: &str, items: &str, margin: &str) -> Result<(), AllocError> {
    write!(out, "{margin}{key}:\n")?;
    for item in items.split(" / ") {
        let inner = item.trim_start_matches('>');
        if !item.is_empty() {
            out.push_str(margin)?;
            for _ in inner.len()..item.len() {
                out.push_str("  ")?;
            }
            write!(out, " - {inner}\n")?;
        }
    }
    Ok(())
}

/// Adds such lists, and lines of `KEY NUMBER`. Where no key is written, it is this one.
fn append_lists(
    out: &mut String,
    lists: &str,
    usual: &str,
    margin: &str,
) -> Result<(), AllocError> {
    for list in lists.split('}') {
        if let Some((key, items)) = list.split_once('{') {
            let key = key.trim();
            append_list(out, if key.is_empty() { usual } else { key }, items, margin)?;
        } else if let Some((key, number)) = list.trim().split_once(' ') {
            write!(out, "{margin}{key}: {number}\n")?;
        }
    }
    Ok(())
}

/// Adds the block of `NAME VERSION ARCHITECTURE: STATUS {ITEM / ITEM}`; the architecture is `all` where none is written.
fn append_block(out: &mut String, head: &str, told: &str) -> Result<(), AllocError> {
    let mut words = head.split_whitespace();
    let (name, version) = (words.next().unwrap_or(""), words.next().unwrap_or(""));
    let architecture = words.next().unwrap_or("all");
    let (status, lists) = told.split_once(' ').unwrap_or((told, ""));
    write!(
        out,
        " -\n  package: {name}\n  version: {version}\n  architecture: {architecture}\n  status: {status}\n"
    )?;
    let usual = if status == "ok" {
        "installation-set"
    } else {
        "reasons"
    };
    append_lists(out, lists, usual, "  ")
}

/// Adds the cause of `PACKAGES FREES KEY {ITEM} KEY {ITEM}`.
fn append_cause(out: &mut String, cause: &str) -> Result<(), AllocError> {
    let (packages, more) = cause.split_once(' ').unwrap_or((cause, ""));
    let (frees, lists) = more.split_once(' ').unwrap_or((more, ""));
    write!(out, " -\n  packages: {packages}\n  frees: {frees}\n")?;
    append_lists(out, lists, "", "  ")
}

/// Adds the lines of `KEY NUMBER, KEY {ITEM / ITEM}`.
fn append_ends(out: &mut String, ends: &str) -> Result<(), AllocError> {
    for end in ends.split(", ") {
        append_lists(out, end, "", "")?;
    }
    Ok(())
}

fn append_line(out: &mut String, line: &str) -> Result<(), AllocError> {
    if let Some(cause) = line.strip_prefix("cause ") {
        return append_cause(out, cause);
    }
    match line.split_once(": ") {
        Some((head, told)) => append_block(out, head, told),
        None => append_ends(out, line),
    }
}

/// The lines of a text, where one that begins with a blank goes on with the one before it, and this is between them.
fn joined(alloc: Global, written: &str, between: &str) -> Result<String, AllocError> {
    let mut out = String::new(alloc);
    for line in written.lines() {
        let told = line.trim_start();
        if told.len() < line.len() {
            out.push_str(between)?;
        } else if !out.is_empty() {
            out.push('\n')?;
        }
        out.push_str(told)?;
    }
    Ok(out)
}

/// The report for amd64 of a line for each block, one for its end, and one for each cause:
///
/// ```text
/// a 1: broken {depends: a 1 Depends: b / missing: b 1 Depends: c}
/// b 1 amd64: ok
/// stanzas 2, skipped 0, duplicates 0, asked 2, broken 1, causes 1
/// cause 1 1 reasons {missing: c} needed-by {b 1 Depends: c} broken {a 1}
/// ```
///
/// A line that begins with a blank goes on with the one before it. What begins as a document does is the text itself, where such a line goes on at once.
/// What begins as a report or a fault does is the text itself, but for its last line feed, which may be left out.
///
/// # Errors
///
/// Want of memory.
pub fn report_of(alloc: Global, written: &str) -> Result<String, AllocError> {
    if written.starts_with("{\"") {
        let mut out = joined(alloc, written, "")?;
        out.push('\n')?;
        return Ok(out);
    }
    for start in ["architecture:", "debcheck", "error:"] {
        if written.starts_with(start) {
            return format!(in alloc; "{}\n", written.strip_suffix('\n').unwrap_or(written));
        }
    }
    let mut out = String::from_str(alloc, "architecture: amd64\nreport:\n")?;
    for line in joined(alloc, written, " ")?.lines() {
        append_line(&mut out, line)?;
    }
    Ok(out)
}
