//! Reading a line, and what is expected of it.

use crate::words::faults::fault_in_words;
use crate::words::settings::settings_in_words;
use command_line::read_line;
use std::alloc::{AllocError, Global};
use std::process::Abort;
use test_devices::words_in;

/// What the line comes to, in words: its settings, or its fault.
fn told_of(alloc: Global, line: &str) -> Result<String, AllocError> {
    let words = words_in(alloc, line)?;
    let outcome = read_line(alloc, words);
    match &outcome {
        Ok(config) => settings_in_words(alloc, config),
        Err(fault) => fault_in_words(alloc, fault),
    }
}

/// Whether these are the words of a refusal: a text for the errors, which is a line or more.
fn is_refusal(told: &str) -> bool {
    told.starts_with("status 64, output: , errors: ") && told.ends_with('\n')
}

/// Whether this is a text for the output, which is a line or more.
fn is_help(told: &str) -> bool {
    told.starts_with("status 0, output: ") && told.ends_with("\n, errors: ")
}

fn has_parts(told: &str, parts: &str) -> bool {
    for part in parts.split('|').skip(1) {
        if !told.contains(part) {
            return false;
        }
    }
    true
}

/// Whether what is told is the version, a refusal without a hint, help or a refusal with these parts, or these settings.
fn is_wanted(told: &str, wanted: &str) -> bool {
    match wanted {
        "version" => told == "status 0, output: debcheck 1.0.0\n, errors: ",
        "no hint" => is_refusal(told) && !told.contains("hint: "),
        _ if wanted.starts_with("help|") => is_help(told) && has_parts(told, wanted),
        _ if wanted.starts_with('|') => is_refusal(told) && has_parts(told, wanted),
        _ => told == wanted,
    }
}

/// The line comes to this.
fn expect_row(rt: &(impl Abort + AllocGlobal), line: &str, wanted: &str) -> Result<(), AllocError> {
    let told = told_of(rt.alloc(), line)?;
    assert!(rt; is_wanted(&told, wanted), "{line}: {told}");
    Ok(())
}

/// Each line of the table comes to what stands on the other side.
pub fn expect_table(rt: &(impl Abort + AllocGlobal), table: &str) -> Result<(), AllocError> {
    for row in table.lines() {
        let (line, wanted) = row.split_once(" => ").expect(rt, "a row has one side");
        expect_row(rt, line, wanted)?;
    }
    Ok(())
}

/// Each line of these tables.
pub fn expect_each(rt: &(impl Abort + AllocGlobal), tables: &[&str]) {
    for table in tables {
        expect_table(rt, table).expect(rt, "no memory");
    }
}

/// The line comes to the same with each of these values behind it, which have a `/` between them.
pub fn expect_values(rt: &(impl Abort + AllocGlobal), line: &str, values: &str, wanted: &str) {
    for value in values.split('/') {
        let line = format!(in rt.alloc(); "{line}{value}").expect(rt, "no memory");
        expect_row(rt, &line, wanted).expect(rt, "no memory");
    }
}
