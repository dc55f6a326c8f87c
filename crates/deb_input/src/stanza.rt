//! Of which package a stanza is.

use crate::lines::{is_blank, shown, value_in};
use crate::naming::{Input, name_of, text_of};
use deb_index::{Index, IndexError, TEXT_LIMIT};
use run_settings::Config;
use std::alloc::Global;

const TWO_INDEXES: &[u8] =
    b", and has a second Package: is there no empty line between two indexes?";

const CUT_OFF: &[u8] = b", and its last line has no end: was the file cut off?";

/// Of which package the stanza with a number is, counted from 1, and what may be wrong beside. A comment neither opens nor ends one.
fn look_at<'t>(text: &'t [u8], number: u64) -> (Option<&'t [u8]>, &'t [u8]) {
    let mut package = None;
    let mut left = number;
    let mut open = false;
    for line in text.split(|b| *b == b'\n') {
        if is_blank(line) {
            if open && left == 0 {
                return (package, b"");
            }
            open = false;
        } else if !line.starts_with(b"#") {
            left = left.saturating_sub(u64::from(!open));
            open = true;
            match value_in(line, b"Package:") {
                Some(_) if left == 0 && package.is_some() => return (package, TWO_INDEXES),
                Some(value) if left == 0 => package = Some(value),
                _ => {}
            }
        }
    }
    (package, CUT_OFF)
}

/// The stanza that a fault is of.
fn stanza_of(fault: &IndexError) -> Option<u64> {
    match fault {
        IndexError::BadLine { stanza }
        | IndexError::RepeatedField { stanza }
        | IndexError::MissingField { stanza }
        | IndexError::BadName { stanza }
        | IndexError::BadVersion { stanza }
        | IndexError::BadRelation { stanza, .. } => Some(*stanza),
        IndexError::TooManyStanzas { .. } | IndexError::Memory => None,
    }
}

/// Of which package the stanza is for whose fault an input is refused, by the piece of it that has the fault.
pub fn stanza_text(
    alloc: Global,
    config: &Config,
    input: Input,
    fault: &IndexError,
    piece: &[u8],
) -> Option<Vec<u8>> {
    let number = stanza_of(fault)?.to_string(alloc).ok()?;
    if piece.len() > TEXT_LIMIT {
        return None;
    }
    // The piece is read by itself for the number that the stanza has in it.
    let own = Index::fault_of(alloc, piece, config.arch.as_str(), config.essential)?;
    let (package, more) = look_at(piece, stanza_of(&own)?);
    let (name, package) = (name_of(input), shown(package?)?);
    let rest = text_of(
        alloc,
        &[b" of ", name, b" is of the package ", package, more],
    )?;
    let digits = number.as_str().as_bytes();
    text_of(alloc, &[b"stanza ", digits, rest.as_slice()])
}
