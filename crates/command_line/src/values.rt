//! The values of the command line's options.

ghost use Rattle.std.specs.Prelude.{◌≡◌, ◌==◌, IfOk, MatchOption, is_none, map, option_map, true, false};
ghost use Rattle.std.specs.Char.{is_ascii_digit};
ghost use Rattle.std.specs.List.{list_all};
ghost use Rattle.std.specs.Str.Parse.{digits_value};
ghost use Rattle.run_settings.specs.Settings.{is_architecture, is_architecture_byte};
ghost use Rattle.command_line.specs.Line.{file_in, format_of, is_count, names_in};
ghost use Rattle.deb_relation.specs.Relationship.{is_name};

use deb_relation::is_name;
use run_settings::Format;
use std::alloc::{AllocError, Global};

/// Whether all bytes of a text are letters, digits or `-`.
fn has_architecture_bytes(text: &[u8]) -> bool
    ensures { result ≡ list_all is_architecture_byte text.now }
{
    text.iter().all(|b| b.is_ascii_alphanumeric() || *b == b'-')
}

/// Whether a text is an architecture that can be checked.
pub(crate) fn is_architecture(text: &str) -> bool
    ensures { result ≡ is_architecture text.now }
{
    match text {
        "" | "all" | "any" => false,
        _ => has_architecture_bytes(text.as_bytes()),
    }
}

fn has_digits(text: &[u8]) -> bool
    ensures { result ≡ list_all is_ascii_digit text.now }
{
    text.iter().all(|b| b.is_ascii_digit())
}

/// The number that a text of decimal digits writes, from 1 to `most`.
pub(crate) fn count_of(text: &str, most: u32) -> Option<u32>
    ensures { MatchOption result (is_count most text.now ≡ false) (λ count. (is_count most text.now ≡ true) × (count ≡ digits_value 10 text.now)) }
{
    if !has_digits(text.as_bytes()) {
        return None;
    }
    match text.parse::<u32>() {
        Ok(count) if 1 <= count && count <= most => Some(count),
        _ => None,
    }
}

/// The form of the report that a word names.
pub(crate) fn format_of(text: &str) -> Option<Format>
    ensures { result ≡ format_of text.now }
{
    match text {
        "text" => Some(Format::Text),
        "json" => Some(Format::Json),
        _ => None,
    }
}

/// The name of a file that stands behind an `@`.
pub(crate) fn file_in(text: &str) -> Option<&str>
    ensures { option_map (λ file. file.now) result ≡ file_in text.now }
{
    text.strip_prefix('@')
}

/// The first part of a list that is no package name.
pub(crate) fn wrong_part(text: &str) -> Option<&str>
    ensures { is_none result ≡ list_all is_name (names_in text.now) }
{
    text.split(',').find(|part| !is_name(part.as_bytes()))
}

/// The parts of a list as names.
pub(crate) fn names_of(alloc: Global, text: &str) -> Result<Vec<Vec<u8>>, AllocError>
    ensures { IfOk result (λ names. map (λ name. name.items) names.items ≡ names_in text.now) }
{
    let mut names = Vec::new(alloc);
    for part in text.split(',') {
        names.push(Vec::from_slice(alloc, part.as_bytes())?)?;
    }
    Ok(names)
}
