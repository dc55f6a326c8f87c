//! Texts that are refused, and the line of the fault.

pub static EXAMPLES: &str = "bad_line under --arch amd64 --explain
 x
gives 65
debcheck: stanza 1: bad line
====
bad_relation under --arch amd64 --explain
Package: a
Version: 1
Architecture: all
Depends: b (>=
gives 65
debcheck: stanza 1: bad relation in Depends
====
missing_field under --arch amd64 --explain
Package: a!
Architecture: all

gives 65
debcheck: stanza 1: missing field
====
bad_line_before_repeated_field under --arch amd64 --explain
Package: a
Package: b
no colon here

gives 65
debcheck: stanza 1: bad line
====
first_stanza_decides under --arch amd64 --explain
Package: a!
Architecture: all

 x
gives 65
debcheck: stanza 1: missing field
====
provides_with_another_operator under --arch amd64 --explain
a 1 {Provides: v (>= 1)}
gives 65
debcheck: stanza 1: bad relation in Provides
====
bad_version under --arch amd64 --explain
a 1_2
gives 65
debcheck: stanza 1: bad version
====
bad_name under --arch amd64 --explain
a! 1
gives 65
debcheck: stanza 1: bad name
====
repeated_field under --arch amd64 --explain
a 1 {package: a}
gives 65
debcheck: stanza 1: repeated field";
