//! The options of the command line, as `clap` reads them.

ghost use Rattle.std.specs.Prelude.{◌≡◌, IfOk, [], false, option_map};
ghost use Rattle.clap.specs.Words.{app_of, first_of, rule_of};
ghost use Rattle.command_line.specs.Line.{app_with, is_set, line_app, option_rule, rows_in, value_of};

use clap::{Arg, ArgAction, ArgMatches, Command};
use std::alloc::{AllocError, Global};

/// An option.
pub(crate) struct LineOption {
    name: &'static str,
    /// Its name of one letter, if it has one.
    short: Option<char>,
    action: ArgAction,
    /// What help calls its value, if it takes one.
    value: &'static [&'static str],
    /// Whether it has to be said.
    required: bool,
    /// Its value where it isn't said, if it has one.
    usual: &'static [&'static str],
    /// What help says of it.
    help: &'static str,
}

/// What options without a value have in common.
const FLAG: LineOption = LineOption {
    name: "",
    short: None,
    action: ArgAction::SetTrue,
    value: &[],
    required: false,
    usual: &[],
    help: "",
};

/// What options with a value have in common.
const VALUED: LineOption = LineOption {
    action: ArgAction::Set,
    ..FLAG
};

// An option without a value: its name, and what help says of it.
macro_rules! flag {
    ($name:literal => $help:literal) => {
        LineOption {
            name: $name,
            help: $help,
            ..FLAG
        }
    };
}

// One that need not be said: its name, what help calls its value, the value where it isn't said, if it has one, and what help says of it.
macro_rules! valued {
    ($name:literal, $value:expr, $usual:expr => $help:literal) => {
        LineOption {
            name: $name,
            value: $value,
            usual: $usual,
            help: $help,
            ..VALUED
        }
    };
}

/// The options, as help lists them.
static OPTIONS: [LineOption; 18] = [
    LineOption {
        name: "arch",
        value: &["A"],
        required: true,
        help: "Architecture to check, such as amd64",
        ..VALUED
    },
    valued!("bg", &["FILE"], &[] => "A second index, which may be used but is not checked"),
    valued!("since", &["FILE"], &[] => "An earlier index: report only what is newly broken"),
    valued!("checkonly", &["NAMES"], &[] => "Check only these packages: N1,N2,.. or @FILE"),
    valued!("format", &["FORM"], &["text"] => "Format of the report, text or json"),
    valued!("workers", &["N"], &["4"] => "Number of workers, 1 to 64"),
    valued!("chunk", &["K"], &["64"] => "Packages that a worker takes at a time"),
    flag!("explain" => "Show the set that was found, or why there is none"),
    flag!("failures" => "Show only packages that cannot be installed"),
    flag!("successes" => "Show only packages that can be installed"),
    flag!("causes" => "List what has to be mended, and what each breaks"),
    flag!("all-reasons" => "Show reasons of all causes, not only of the first"),
    flag!("why" => "Show reasons step by step, starting at the package"),
    flag!("ignore-essential" => "Do not require essential packages"),
    flag!("strict" => "Fail if there is nothing to check"),
    flag!("quiet" => "Show no progress and no hints on a terminal"),
    LineOption {
        name: "help",
        short: Some('h'),
        action: ArgAction::Help,
        help: "Print this help",
        ..FLAG
    },
    LineOption {
        name: "version",
        short: Some('V'),
        action: ArgAction::Version,
        help: "Print the version",
        ..FLAG
    },
];

/// What stands behind the options.
const AFTER_HELP: &str =
    "Example: xzcat Packages.xz | debcheck --arch amd64 --failures --why --strict
Exit status: 0 all can be installed, 1 some cannot, 64 bad command line,
65 bad index, 66 unknown name, 67 read error, 68 write error, 69 no memory
Without arguments: --arch amd64 --explain. Manual: man debcheck";

/// An option as `clap` takes it.
fn argument<'a>(alloc: Global, option: &'static LineOption) -> Arg<'a>
    ensures rule { rule_of result ≡ option_rule option.now }
    ensures local { result.global ≡ false }
{
    let argument = Arg::new(alloc, option.name)
        .long(option.name)
        .action(option.action)
        .value_names(option.value)
        .help(option.help)
        .required(option.required)
        .default_values(option.usual);
    match option.short {
        Some(short) => argument.short(short),
        None => argument,
    }
}

/// The program's command without options.
fn bare<'a>(alloc: Global) -> Command<'a>
    ensures { app_of result ≡ app_with [] }
{
    Command::new(alloc, "debcheck")
        .about("Checks which packages of a Debian index can be installed")
        .override_usage("debcheck [OPTIONS] --arch <A> < Packages")
        .after_help(AFTER_HELP)
        .no_binary_name(true)
        .disable_help_flag(true)
}

/// The program's command.
pub(crate) fn command<'a>(alloc: Global) -> Result<Command<'a>, AllocError>
    ensures { IfOk result (λ command. app_of command ≡ line_app) }
{
    let mut command = bare(alloc);
    for option in &OPTIONS {
        command = command.arg(argument(alloc, option))?;
    }
    Ok(command)
}

/// The value of an option, where it has one.
pub(crate) fn given<'a>(matches: &ArgMatches<'a>, name: &str) -> Option<&'a str>
    ensures { option_map (λ value. value.now) result ≡ first_of name.now (rows_in matches.now) }
{
    matches.get_str(name)
}

/// The value of an option that has one.
pub(crate) fn value_of<'a>(matches: &ArgMatches<'a>, name: &str) -> &'a str
    ensures { result.now ≡ value_of name.now (rows_in matches.now) }
{
    given(matches, name).unwrap_or("")
}

/// Whether an option without a value was given.
pub(crate) fn is_set(matches: &ArgMatches<'_>, name: &str) -> bool
    ensures { result ≡ is_set name.now (rows_in matches.now) }
{
    match given(matches, name) {
        Some(value) => value == "true",
        None => false,
    }
}
