//! The values of the options, each of its form.

ghost use Rattle.std.specs.Prelude.{◌≡◌, codes, is_none, is_some, option_map, unwrap_or};
ghost use Rattle.std.specs.Str.Parse.{digits_value};
ghost use Rattle.clap.specs.Words.{first_of};
ghost use Rattle.run_settings.specs.Settings.{is_architecture};
ghost use Rattle.command_line.specs.Line.{AreValuesOf, IsReadIf, format_of, has_good_file, has_good_names, has_good_reasons, has_good_since};
ghost use Rattle.command_line.specs.Line.{has_good_values, is_count, is_good_list, is_set, rows_in, show_of, tells_more_reasons, value_of};

use crate::options::{given, is_set, value_of};
use crate::refusal::Refusal;
use crate::values::{count_of, file_in, format_of, is_architecture, wrong_part};
use clap::ArgMatches;
use run_settings::{CHUNK_LIMIT, Format, Show};

/// The most workers that a run takes, as `work_draw` has it.
const WORKER_LIMIT: u32 = 64;

/// What the values of the options say.
#[derive(Drop)]
pub(crate) struct Values<'a> {
    pub(crate) arch: &'a str,
    pub(crate) workers: u32,
    pub(crate) chunk: u32,
    pub(crate) show: Show,
    /// What is given of the names that are asked.
    pub(crate) asked: Option<&'a str>,
    pub(crate) bg: Option<&'a str>,
    pub(crate) since: Option<&'a str>,
    pub(crate) format: Format,
}

/// What is allowed in the place of a value that is no architecture.
fn allowed_architectures(value: &str) -> &'static str {
    match value {
        "x86_64" => "Debian calls it amd64",
        _ => "one or more letters, digits and -, neither all nor any",
    }
}

fn architecture<'a>(matches: &ArgMatches<'a>) -> Result<&'a str, Refusal<'a>>
    ensures { IsReadIf (is_architecture (value_of (codes "arch") (rows_in matches.now))) result
        (λ arch. arch.now ≡ value_of (codes "arch") (rows_in matches.now)) }
{
    let value = value_of(matches, "arch");
    if is_architecture(value) {
        return Ok(value);
    }
    Err(Refusal::Value {
        option: "--arch <A>",
        value,
        allowed: allowed_architectures(value),
    })
}

fn workers<'a>(matches: &ArgMatches<'a>) -> Result<u32, Refusal<'a>>
    ensures { IsReadIf (is_count 64 (value_of (codes "workers") (rows_in matches.now))) result
        (λ count. count ≡ digits_value 10 (value_of (codes "workers") (rows_in matches.now))) }
{
    let value = value_of(matches, "workers");
    count_of(value, WORKER_LIMIT).ok_or(Refusal::Value {
        option: "--workers <N>",
        value,
        allowed: "a number from 1 to 64",
    })
}

fn chunk<'a>(matches: &ArgMatches<'a>) -> Result<u32, Refusal<'a>>
    ensures { IsReadIf (is_count 1000000 (value_of (codes "chunk") (rows_in matches.now))) result
        (λ count. count ≡ digits_value 10 (value_of (codes "chunk") (rows_in matches.now))) }
{
    let value = value_of(matches, "chunk");
    count_of(value, CHUNK_LIMIT).ok_or(Refusal::Value {
        option: "--chunk <K>",
        value,
        allowed: "a number from 1 to 1000000",
    })
}

/// What is allowed in the place of a part of a list that is no name.
fn allowed_names(part: &str) -> &'static str {
    if part.starts_with(' ') {
        return "package names with commas between them, and no spaces";
    }
    "package names with commas between them, or @ and the name of a file"
}

/// What is wrong with a list that is neither names with commas between them nor the name of a file behind an `@`.
fn wrong_list(list: &str) -> Option<Refusal<'_>>
    ensures { is_none result ≡ is_good_list list.now }
{
    let (value, allowed) = match file_in(list) {
        Some("") => (list, "the name of a file behind @"),
        Some(_) => return None,
        None => {
            let part = wrong_part(list)?;
            (part, allowed_names(part))
        }
    };
    Some(Refusal::Value {
        option: "--checkonly <N1,N2,..>",
        value,
        allowed,
    })
}

/// What is given of the names that are asked: a list of them, or the name of a file behind an `@`.
fn asked<'a>(matches: &ArgMatches<'a>) -> Result<Option<&'a str>, Refusal<'a>>
    ensures { IsReadIf (has_good_names (rows_in matches.now)) result
        (λ list. option_map (λ text. text.now) list ≡ first_of (codes "checkonly") (rows_in matches.now)) }
{
    let list = given(matches, "checkonly");
    match list.and_then(wrong_list) {
        Some(refusal) => Err(refusal),
        None => Ok(list),
    }
}

/// The name of the file that an option takes; `shown` is the option as a refusal names it.
fn file<'a>(
    matches: &ArgMatches<'a>,
    option: &str,
    shown: &'static str,
) -> Result<Option<&'a str>, Refusal<'a>>
    ensures { IsReadIf (has_good_file option.now (rows_in matches.now)) result
        (λ file. option_map (λ name. name.now) file ≡ first_of option.now (rows_in matches.now)) }
{
    match given(matches, option) {
        Some("") => Err(Refusal::Value {
            option: shown,
            value: "",
            allowed: "the name of a file",
        }),
        file => Ok(file),
    }
}

/// The name of the earlier index's file. With one, packages that can be installed are not asked for.
fn earlier<'a>(matches: &ArgMatches<'a>) -> Result<Option<&'a str>, Refusal<'a>>
    ensures { IsReadIf (has_good_since (rows_in matches.now)) result
        (λ file. option_map (λ name. name.now) file ≡ first_of (codes "since") (rows_in matches.now)) }
{
    let since = file(matches, "since", "--since <FILE>")?;
    if since.is_some() && is_set(matches, "successes") {
        return Err(Refusal::BesideSuccesses {
            option: "--since <FILE>",
            but: "",
        });
    }
    Ok(since)
}

fn report_format<'a>(matches: &ArgMatches<'a>) -> Result<Format, Refusal<'a>>
    ensures { IsReadIf (is_some (format_of (value_of (codes "format") (rows_in matches.now)))) result
        (λ f. f ≡ unwrap_or (format_of (value_of (codes "format") (rows_in matches.now))) Format.Text) }
{
    let value = value_of(matches, "format");
    format_of(value).ok_or(Refusal::Value {
        option: "--format <FORM>",
        value,
        allowed: "text or json",
    })
}

/// Whether reasons are told beside the first ones, or as they are walked; both mean that blocks explain.
pub(crate) fn tells_more_reasons(matches: &ArgMatches<'_>) -> bool
    ensures { result ≡ tells_more_reasons (rows_in matches.now) }
{
    is_set(matches, "all-reasons") || is_set(matches, "why")
}

/// Which packages are shown. What tells of those that cannot be installed alone is refused where the others are asked for alone.
fn show<'a>(matches: &ArgMatches<'a>) -> Result<Show, Refusal<'a>>
    ensures { IsReadIf (has_good_reasons (rows_in matches.now)) result (λ shown.
        shown ≡ show_of (is_set (codes "failures") (rows_in matches.now)) (is_set (codes "successes") (rows_in matches.now))) }
{
    match (is_set(matches, "failures"), is_set(matches, "successes")) {
        (true, false) => Ok(Show::Failures),
        (false, true) if tells_more_reasons(matches) => Err(Refusal::BesideSuccesses {
            option: if is_set(matches, "why") {
                "--why"
            } else {
                "--all-reasons"
            },
            but: " unless '--failures' is there, too",
        }),
        (false, true) => Ok(Show::Successes),
        _ => Ok(Show::All),
    }
}

/// The values of the options, each of its form.
pub(crate) fn checked_values<'a>(matches: &ArgMatches<'a>) -> Result<Values<'a>, Refusal<'a>>
    ensures { IsReadIf (has_good_values (rows_in matches.now)) result (AreValuesOf (rows_in matches.now)) }
{
    Ok(Values {
        arch: architecture(matches)?,
        workers: workers(matches)?,
        chunk: chunk(matches)?,
        show: show(matches)?,
        asked: asked(matches)?,
        bg: file(matches, "bg", "--bg <FILE>")?,
        since: earlier(matches)?,
        format: report_format(matches)?,
    })
}
