//! The option that names an earlier index.

use crate::words::asking::expect_each;

/// Lines with an earlier index, and some with none, a wrong one, or one beside packages that can be installed.
const EARLIER: &str = "|--since|f|--arch|amd64 => amd64, since f
|--since|-|--arch|amd64|--failures => amd64, failures, since -
|--since|old/Packages|--arch|amd64|--bg|b|--causes => amd64, causes, bg b, since old/Packages
|--arch|amd64|--since=-x=y => amd64, since -x=y
|--arch|amd64|--since => |--since
|--arch|amd64|--since| => |--since|the name of a file|--help
|--arch|amd64|--since= => |--since|--help
|--since|--arch|amd64 => |--since
|--since|f => |--arch
|--since|f|--arch|amd64|--since|g => |--since
|--since|f|--arch|amd64|--successes => |--since|--successes|--help
|--successes|--failures|--arch|amd64|--since=f => |--since|--successes|--help";

#[test]
fn an_earlier_index_is_named_once(rt: HostRuntime) {
    expect_each(&rt, &[EARLIER]);
}
