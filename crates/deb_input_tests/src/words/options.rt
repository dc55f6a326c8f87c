//! Each option, and words that are none.

use crate::words::asking::expect_each;

const ALL_OPTIONS: &str =
    "|--checkonly|b,a+1.x_y,b|--ignore-essential|--explain|--failures|--chunk|1000000|--workers=64|--arch|i386|--quiet|--format|json\
|--bg|main/Packages|--why|--causes|--all-reasons|--strict => \
i386, explain, ignore-essential, failures, causes, all-reasons, why, strict, quiet, json, workers 64, chunk 1000000, only b a+1.x_y b, bg main/Packages";

/// Lines, and the settings that are not the usual ones. An architecture is enough, and no words ask for explanations.
const ONE_OPTION: &str = " => amd64, explain
|--arch|amd64 => amd64
|--arch|amd64|-- => amd64
|--arch=kfreebsd-i386 => kfreebsd-i386
|--arch|amd64|--explain => amd64, explain
|--arch|amd64|--ignore-essential => amd64, ignore-essential
|--arch|amd64|--failures => amd64, failures
|--arch|amd64|--successes => amd64, successes
|--successes|--arch|amd64|--failures => amd64
|--arch|amd64|--checkonly|zz => amd64, only zz
|--arch|amd64|--causes => amd64, causes
|--arch|amd64|--all-reasons => amd64, explain, all-reasons
|--arch|amd64|--explain|--all-reasons => amd64, explain, all-reasons
|--arch|amd64|--why => amd64, explain, why
|--why|--arch|amd64|--successes|--failures => amd64, explain, why
|--arch|amd64|--strict => amd64, strict
|--arch|amd64|--quiet => amd64, quiet
|--arch|amd64|--bg|f => amd64, bg f
|--arch|amd64|--since|f => amd64, since f
|--arch|amd64|--format|json => amd64, json
|--arch|amd64|--format=text => amd64";

/// Lines with a background, and some with none or a wrong one.
const BACKGROUNDS: &str = "|--bg|f|--arch|amd64 => amd64, bg f
|--bg|-|--arch|amd64 => amd64, bg -
|--bg|main/Packages|--arch|amd64 => amd64, bg main/Packages
|--bg|a b|--arch|amd64 => amd64, bg a b
|--bg|ä|--arch|amd64 => amd64, bg ä
|--bg|.|--arch|amd64 => amd64, bg .
|--arch|amd64|--bg=-x=y => amd64, bg -x=y
|--arch|amd64|--bg => |--bg
|--arch|amd64|--bg| => |--bg|--help
|--arch|amd64|--bg= => |--bg|--help
|--bg|--arch|amd64 => |--bg
|--bg|f => |--arch
|--bg|f|--arch|amd64|--bg|g => |--bg";

/// An option twice, or with a value.
const NO_VALUES: &str = "|--arch|amd64|--explain|--explain => |--explain
|--arch|amd64|--explain=yes => |--explain
|--arch|amd64|--failures|--failures => |--failures
|--arch|amd64|--failures=yes => |--failures
|--arch|amd64|--successes|--successes => |--successes
|--arch|amd64|--successes=yes => |--successes
|--arch|amd64|--causes|--causes => |--causes
|--arch|amd64|--causes=yes => |--causes
|--arch|amd64|--all-reasons|--all-reasons => |--all-reasons
|--arch|amd64|--all-reasons=yes => |--all-reasons
|--arch|amd64|--why|--why => |--why
|--arch|amd64|--why=yes => |--why
|--arch|amd64|--ignore-essential|--ignore-essential => |--ignore-essential
|--arch|amd64|--ignore-essential=yes => |--ignore-essential
|--arch|amd64|--strict|--strict => |--strict
|--arch|amd64|--strict=yes => |--strict
|--arch|amd64|--quiet|--quiet => |--quiet
|--arch|amd64|--quiet=yes => |--quiet";

/// Lines that ask for more reasons, and for the packages alone that have none.
const NO_REASONS: &str =
    "|--arch|amd64|--successes|--all-reasons => |--all-reasons|--successes|--failures|--help
|--arch|amd64|--why|--successes => |--why|--successes|--failures|--help
|--arch|amd64|--why|--successes|--all-reasons|--explain => |--why|--successes|--failures|--help
|--since|f|--arch|amd64|--why|--successes => |--why|--successes";

/// Lines with a wrong word.
const OTHER_WORDS: &str = "|--arch|amd64|--frobnicate => |--frobnicate
|--arch|amd64|--explai => |--explai
|--arch|amd64|-f => |-f
|-e|--arch|amd64 => |-e
|--arch|amd64|Packages => |Packages
|--arch|amd64|--|--explain => |--explain
|--arch|amd64|-v => |-v
|--arch|amd64|--explain=yes => |--explain
|help => |help
| => |--help
|--arch => |--arch
|--workers => |--workers
|--chunk => |--chunk
|--checkonly => |--checkonly
|--bg => |--bg
|--since => |--since
|--format => |--format
|--arch|amd64|--workers => |--workers";

/// A line of all options, each by itself, a background that is named once, options without a value that come once, more reasons that are of failures, and
/// other words.
#[test]
fn lines_ask_for_settings(rt: HostRuntime) {
    let tables = [
        ALL_OPTIONS,
        ONE_OPTION,
        BACKGROUNDS,
        NO_VALUES,
        NO_REASONS,
        OTHER_WORDS,
    ];
    expect_each(&rt, &tables);
}
