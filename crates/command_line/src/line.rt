//! What the words of a command line ask for.

ghost use Rattle.std.specs.Prelude.{◌≡◌, ◌<◌, ◌≤◌, ℕ, All, IfOk, IfErr, IfSome, OnOk, map, option_map, string_bytes, true};
ghost use Rattle.clap.specs.Words.{kind_of};
ghost use Rattle.deb_relation.specs.Relationship.{is_name};
ghost use Rattle.run_settings.specs.Settings.{is_architecture, settings_of};
ghost use Rattle.command_line.specs.Line.{Accepts, AreValuesOf, IsFaultOf, RefusesLine, RefusesUnless, asked_by, file_named, has_good_values};
ghost use Rattle.command_line.specs.Line.{listed_in, request_of, rows_in};

use crate::checked::{Values, checked_values, tells_more_reasons};
use crate::fault::LineFault;
use crate::options::{command, is_set};
use crate::other_words::advice_in;
use crate::refusal::fault_of;
use crate::values::{file_in, names_of};
use clap::ArgMatches;
use clap::error::ErrorKind;
use run_settings::Config;
use std::alloc::{AllocError, Global};

/// What `--version` writes: the name of the program and its version.
pub const VERSION_LINE: &str = "debcheck 1.0.0\n";

/// The text of a refusal, with what to write here where that is known.
fn refused_text(
    alloc: Global,
    error: &clap::Error,
    words: &[String],
) -> Result<String, AllocError> {
    let text = error.to_string(alloc)?;
    match advice_in(text.as_str(), words) {
        Some(advice) => format!(in alloc; "{text}hint: {advice}\n"),
        None => Ok(text),
    }
}

/// What a parse that gives no matches comes to.
fn fault_from(alloc: Global, error: &clap::Error, words: &[String]) -> Result<LineFault, AllocError>
    ensures { IfOk result (IsFaultOf (kind_of error.now)) }
{
    Ok(match error.kind() {
        ErrorKind::OutOfMemory => LineFault::Memory,
        ErrorKind::DisplayHelp => LineFault::Help {
            text: error.to_string(alloc)?,
        },
        ErrorKind::DisplayVersion => LineFault::Help {
            text: String::from_str(alloc, VERSION_LINE)?,
        },
        _ => LineFault::Refused {
            text: refused_text(alloc, error, words)?,
        },
    })
}

/// The names that are asked, where a list of them is given.
fn only(alloc: Global, list: Option<&str>) -> Result<Option<Vec<Vec<u8>>>, AllocError>
    ensures { IfOk result (λ only. option_map (λ names. map (λ name. name.items) names.items) only ≡ listed_in (option_map (λ text. text.now) list.entry)) }
{
    let Some(list) = list else {
        return Ok(None);
    };
    match file_in(list) {
        Some(_) => Ok(None),
        None => Ok(Some(names_of(alloc, list)?)),
    }
}

/// The name of the file that has the names that are asked, where one is given.
fn only_file(list: Option<&str>) -> Option<&str>
    ensures { option_map (λ file. file.now) result ≡ file_named (option_map (λ text. text.now) list.entry) }
{
    list.and_then(file_in)
}

/// The text of a value by itself.
fn owned(alloc: Global, text: Option<&str>) -> Result<Option<String>, AllocError>
    ensures { IfOk result (λ owned. option_map string_bytes owned ≡ option_map (λ text. text.now) text.entry) }
{
    match text {
        Some(text) => Ok(Some(String::from_str(alloc, text)?)),
        None => Ok(None),
    }
}

/// The configuration of these values and of the options that have none.
fn config_with(
    alloc: Global,
    matches: &ArgMatches<'_>,
    values: &Values<'_>,
) -> Result<Config, AllocError>
    requires { AreValuesOf (rows_in matches.now) values.now }
    ensures { IfOk result (λ config. request_of config ≡ asked_by (rows_in matches.now)) }
{
    Ok(Config {
        arch: String::from_str(alloc, values.arch)?,
        workers: values.workers,
        chunk: values.chunk,
        explain: is_set(matches, "explain") || tells_more_reasons(matches),
        show: values.show,
        essential: !is_set(matches, "ignore-essential"),
        only: only(alloc, values.asked)?,
        only_file: owned(alloc, only_file(values.asked))?,
        bg: owned(alloc, values.bg)?,
        since: owned(alloc, values.since)?,
        strict: is_set(matches, "strict"),
        causes: is_set(matches, "causes"),
        all_reasons: is_set(matches, "all-reasons"),
        why: is_set(matches, "why"),
        format: values.format,
        quiet: is_set(matches, "quiet"),
    })
}

/// The configuration that the options and their values say.
fn config_of(alloc: Global, matches: &ArgMatches<'_>) -> Result<Config, LineFault>
    ensures good { OnOk result (has_good_values (rows_in matches.now) ≡ true) }
    ensures request { IfOk result (λ config. request_of config ≡ asked_by (rows_in matches.now)) }
    ensures refused { IfErr result (RefusesUnless (has_good_values (rows_in matches.now))) }
{
    match checked_values(matches) {
        Ok(values) => Ok(config_with(alloc, matches, &values)?),
        Err(refusal) => Err(fault_of(alloc, &refusal)?),
    }
}

/// The configuration that the words ask for.
fn read_words(alloc: Global, words: &[String]) -> Result<Config, LineFault>
    ensures accepted { IfOk result (Accepts (map string_bytes words.now)) }
    ensures refused { IfErr result (RefusesLine (map string_bytes words.now)) }
{
    if words.is_empty() {
        return Ok(Config::usual(alloc)?);
    }
    match command(alloc)?.try_get_matches_from(words) {
        Ok(matches) => config_of(alloc, &matches),
        Err(error) => Err(fault_from(alloc, &error, words)?),
    }
}

/// The configuration that the words after the program's name ask for. No words mean `Config::usual`.
///
/// `--arch A` has to be said: one or more letters, digits and `-`, neither `all` nor `any`. `--workers N` (1 to 64, 4 where it isn't said)
/// and `--chunk K` (1 to 1,000,000, 64) take decimal digits alone. `--explain` tells sets and reasons, `--failures` and `--successes` say which
/// packages are shown (all for both or neither), `--ignore-essential` asks for no essential packages, and `--checkonly N1,N2,..` takes
/// package names with commas between them, or the name of a file behind `@`, which has the names. `--bg FILE` names the file of a background,
/// and `--since FILE` that of an earlier index, neither of which is empty; beside `--since` there is no `--successes`. `--strict` makes a
/// fault of an index of which nothing is asked, as `--since` does. `--causes` asks for causes, `--all-reasons` for the reasons of all causes of a
/// package, and `--why` for reasons as they are walked from it; these two mean `--explain`, too, and beside them there is no `--successes`
/// without `--failures`. `--format` takes `text` (where it isn't said) or `json`, and `--quiet` asks for no progress and no hints. A value comes
/// as the next word or after `=`; one that begins with `-` comes after `=`. No option comes twice.
///
/// `Help` is the answer to `--help` or `-h`, and to `--version` or `-V` with `VERSION_LINE`, whichever comes first; `Refused` is the answer to
/// words or values of another form, with a text that says what is wrong, of a list which part of it is, and of a word that a program like this one
/// takes what to write here. The words are consumed.
pub fn read_line(alloc: Global, words: Vec<String>) -> Result<Config, LineFault>
    ensures accepted { IfOk result (Accepts (map string_bytes words.items)) }
    ensures refused { IfErr result (RefusesLine (map string_bytes words.items)) }
    ensures architecture { IfOk result (λ config. is_architecture (string_bytes config.arch) ≡ true) }
    ensures workers { IfOk result (λ config. (0 < config.workers) × (config.workers ≤ 64)) }
    ensures chunk { IfOk result (λ config. (0 < config.chunk) × (config.chunk ≤ 1000000)) }
    ensures only { IfOk result (λ config. IfSome (settings_of config).only (All (λ name. is_name name ≡ true))) }
{
    read_words(alloc, words.as_slice())
}
