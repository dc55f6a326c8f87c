//! The values of options: formats, numbers, architectures and names.

use crate::words::asking::{expect_each, expect_values};

/// No value, or two.
const NO_FORMATS: &str = "|--arch|amd64|--format= => |--format
|--arch|amd64|--format => |--format
|--arch|amd64|--format=json|--format=json => |--format";

/// Lines with a number of workers, or of packages that a worker takes at once.
const NUMBERS: &str = "|--arch|amd64|--workers|1 => amd64, workers 1
|--arch|amd64|--workers|64 => amd64, workers 64
|--arch|amd64|--workers|007 => amd64, workers 7
|--arch|amd64|--chunk|1 => amd64, chunk 1
|--arch|amd64|--chunk|1000000 => amd64, chunk 1000000
|--arch|amd64|--chunk|00064 => amd64
|--arch|amd64|--workers=-1 => |--workers|1 to 64
|--arch|amd64|--workers|-1 => |-1";

/// Lines with an architecture, and some where it is attached and wrong, absent, or behind a hyphen. What begins with a hyphen is attached to the option.
const ARCHITECTURES: &str = "|--arch|a => a
|--arch|AMD64 => AMD64
|--arch|x32 => x32
|--arch|musl-linux-arm64 => musl-linux-arm64
|--arch|- => -
|--arch|ALL => ALL
|--arch|anything => anything
|--arch|0 => 0
|--arch=-x => -x
|--arch=--explain => --explain
|--arch=all => |--arch|neither all nor any
|--arch=any => |--arch|neither all nor any
|--arch= => |--arch|neither all nor any
|--workers|2 => |--arch
|--arch|-x => |-x
|--arch|--explain => |--arch";

/// Lines with the file of the names.
const FILES: &str = "|--arch|amd64|--checkonly|@f => amd64, names in f
|--arch|amd64|--checkonly=@a,b c => amd64, names in a,b c
|--checkonly|@@x|--arch|amd64|--bg|y => amd64, names in @x, bg y";

/// Lists with a wrong name, and it among what is said of them.
const NO_NAMES: &str = "|--arch|amd64|--checkonly| => |--checkonly|value \"\" for|package names
|--arch|amd64|--checkonly|a! => |--checkonly|value \"a!\" for|package names
|--arch|amd64|--checkonly|a,,b => |--checkonly|value \"\" for|package names
|--arch|amd64|--checkonly|a,B c,-d => |--checkonly|value \"B c\" for|package names
|--arch|amd64|--checkonly|a,b, => |--checkonly|value \"\" for|package names
|--arch|amd64|--checkonly|a,@b => |--checkonly|value \"@b\" for|package names
|--arch|amd64|--checkonly|@ => |--checkonly|value \"@\" for|the name of a file
|--arch|amd64|--checkonly=@ => |--checkonly|value \"@\" for|the name of a file";

#[test]
fn values_have_their_form(rt: HostRuntime) {
    expect_each(&rt, &[NO_FORMATS, NUMBERS, ARCHITECTURES, FILES, NO_NAMES]);
}

/// The front of a line, other values, which have a `/` between them, and what is said of each.
const OTHER_VALUES: [(&str, &str, &str); 5] = [
    (
        "|--arch|amd64|--format|",
        "/Text/JSON/yaml/text,json/ json/jsonl",
        "|--format|text or json|--help",
    ),
    (
        "|--arch|amd64|--workers|",
        "0/65/+4/ 4/4 /four/4x//1e1/4294967300/100000000000000000000000000004",
        "|--workers|1 to 64|--help",
    ),
    (
        "|--arch|amd64|--chunk|",
        "0/1000001/+64/ 64/sixty/64.0//100000000000000000000000000004",
        "|--chunk|1 to 1000000|--help",
    ),
    (
        "|--arch|",
        "all/any//amd 64/amd64,i386/linux_any/amd64\n/ä",
        "|--arch|neither all nor any|--help",
    ),
    (
        "|--arch|amd64|--checkonly=",
        "/,/a,,b/a,/,a/a!/a, b/-a/+/a,b c/ä",
        "|--checkonly|package names|--help",
    ),
];

#[test]
fn other_values_are_refused(rt: HostRuntime) {
    for (line, values, parts) in OTHER_VALUES {
        expect_values(&rt, line, values, parts);
    }
}
