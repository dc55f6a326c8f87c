//! The texts of help and of the version.

use crate::words::asking::{expect_each, expect_values};

/// Help names each option.
const OPTIONS: &str =
    "help|--arch|--workers|--chunk|--explain|--failures|--successes|--ignore-essential|--checkonly|--bg|--since\
|--causes|--all-reasons|--why|--format|--strict|--quiet|-h, --help|-V, --version";

/// The version is one line.
const VERSIONS: &str = "|--version => version
|--arch|amd64|--version => version
|--version|--help => version
|-V => version
|-Vh => version
|--versio => |--versio
|--version=1 => |--version";

/// Lines whose first fault is one of a value, of what options stand together, or that something is missing: all that is looked at behind the words. And some
/// with a fault behind what asks for help or for the version, in the same word, too.
const ANSWERED: &str = "|--arch|all|--help => help|--arch
|--workers|0|--version => version
|--format|xml|--help => help|--arch
|--checkonly=|-h => help|--arch
|--successes|--since|x|--help => help|--arch
|--why|--successes|--version => version
|--bg=|-V => version
|--help|--frobnicate => help|--arch
|-hx => help|--arch
|-V=1 => version
|-V|-h => version";

/// Lines with a word before it that is refused as it is read: no option, one again, one without its value or with one that it doesn't take. Behind a lone
/// `--` there are no options.
const REFUSED_FIRST: &str = "|--frobnicate|--help => |'--frobnicate'
|-xh => |'-x'
|x|--version => |'x'
|--arch|a|--arch|b|--help => |--arch|multiple times
|--arch|--help => |--arch|a value is required
|--workers|-h => |--workers|a value is required
|--explain=yes|--help => |--explain|unexpected value
|--help=1 => |--help|unexpected value
|--arch|amd64|--|--help => |'--help'
|--|--version => |'--version'
|-- => |--arch";

#[test]
fn help_and_the_version_are_told(rt: HostRuntime) {
    expect_values(&rt, "|", "--help/-h/--arch|amd64|-h", OPTIONS);
    expect_each(&rt, &[VERSIONS, ANSWERED, REFUSED_FIRST]);
}
