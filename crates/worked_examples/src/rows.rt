//! Texts of one index, and what is written of them: dependencies and conflicts, essential names, fields and duplicates, architecture qualifiers and
//! `Multi-Arch`, and words that ask for less or for more.

pub static RELATIONS: &str = "empty_input under --arch amd64 --explain

gives 0
architecture: amd64
report:
stanzas: 0
skipped: 0
duplicates: 0
asked: 0
broken: 0
====
one_package_without_last_line_feed under --arch amd64 --explain
Package: a
Version: 1
Architecture: amd64
gives 0
architecture: amd64
report:
 -
  package: a
  version: 1
  architecture: amd64
  status: ok
  installation-set:
   - a 1
stanzas: 1
skipped: 0
duplicates: 0
asked: 1
broken: 0
====
missing_dependency under --arch amd64 --explain
a 1 {Depends: b} / b 1 {Depends: c (>= 2)} / c 1
gives 1
a 1: broken {depends: a 1 Depends: b / missing: b 1 Depends: c (>= 2)}
b 1: broken {missing: b 1 Depends: c (>= 2)}
c 1: ok {c 1}
stanzas 3, skipped 0, duplicates 0, asked 3, broken 2
====
alternatives under --arch amd64 --explain
a 1 {Depends: b | c} / b 1 / c 1
gives 0
architecture: amd64
report:
 -
  package: a
  version: 1
  architecture: all
  status: ok
  installation-set:
   - a 1
   - c 1
 -
  package: b
  version: 1
  architecture: all
  status: ok
  installation-set:
   - b 1
 -
  package: c
  version: 1
  architecture: all
  status: ok
  installation-set:
   - c 1
stanzas: 3
skipped: 0
duplicates: 0
asked: 3
broken: 0
====
first_core_lacks_the_earlier under --arch amd64 --explain
a 1 {Depends: x, y}
gives 1
a 1: broken {missing: a 1 Depends: y}
stanzas 1, skipped 0, duplicates 0, asked 1, broken 1
====
conflict_between_dependencies under --arch amd64 --explain
a 1 {Depends: b, c} / b 1 {Conflicts: c} / c 1
gives 1
a 1: broken {depends: a 1 Depends: b / depends: a 1 Depends: c / conflict: b 1 Conflicts: c}
b 1: ok {b 1}
c 1: ok {c 1}
stanzas 3, skipped 0, duplicates 0, asked 3, broken 1
====
mail_agents under --arch amd64 --explain
m1 1 {Provides: mail-agent; Conflicts: mail-agent} / m2 1 {Provides: mail-agent; Conflicts: mail-agent} / u 1 {Depends: m1, m2}
gives 1
m1 1: ok {m1 1}
m2 1: ok {m2 1}
u 1: broken {conflict: m2 1 Conflicts: mail-agent / depends: u 1 Depends: m1 / depends: u 1 Depends: m2}
stanzas 3, skipped 0, duplicates 0, asked 3, broken 1
====
two_versions under --arch amd64 --explain
n 1 / n 2 / a 1 {Depends: n (= 1), b} / b 1 {Depends: n (= 2)}
gives 1
n 1: ok {n 1}
n 2: ok {n 2}
a 1: broken {depends: a 1 Depends: n (= 1) / depends: a 1 Depends: b / depends: b 1 Depends: n (= 2) / versions: n}
b 1: ok {n 2 / b 1}
stanzas 4, skipped 0, duplicates 0, asked 4, broken 1
====
versioned_provides under --arch amd64 --explain
foo 1 {Depends: bar (>= 1.0)} / bar 0.9 / bar-plus 1 {Provides: bar (= 1.0)}
gives 0
foo 1: ok {foo 1 / bar-plus 1}
bar 0.9: ok {bar 0.9}
bar-plus 1: ok {bar-plus 1}
stanzas 3, skipped 0, duplicates 0, asked 3, broken 0";

pub static MEANINGS: &str = "unversioned_provides under --arch amd64 --explain
foo 1 {Depends: bar (>= 1.0)} / bar 0.9 / bar-plus 1 {Provides: bar}
gives 1
foo 1: broken {missing: foo 1 Depends: bar (>= 1.0)}
bar 0.9: ok {bar 0.9}
bar-plus 1: ok {bar-plus 1}
stanzas 3, skipped 0, duplicates 0, asked 3, broken 1
====
essential_conflict under --arch amd64 --explain
base 1 {Essential: yes} / x 1 {Conflicts: base}
gives 1
base 1: ok {base 1}
x 1: broken {essential: base / conflict: x 1 Conflicts: base}
stanzas 2, skipped 0, duplicates 0, asked 2, broken 1
====
essential_names_apart under --arch amd64 --explain
e1 1 {Essential: yes; Conflicts: e2} / e2 1 {Essential: yes} / z 1
gives 1
e1 1: broken {essential: e2 / conflict: e1 1 Conflicts: e2}
e2 1: broken {essential: e1 / conflict: e1 1 Conflicts: e2}
z 1: broken {essential: e1 / essential: e2 / conflict: e1 1 Conflicts: e2}
stanzas 3, skipped 0, duplicates 0, asked 3, broken 3
====
folded_field_and_comment under --arch amd64 --explain
Package: a
Version: 1
Architecture: all
DEPENDS: b,
# a note
 c (< 2)
 ,

Package: b
Version: 1
Architecture: all

Package: c
Version: 2
Architecture: all

gives 0
a 1: ok {a 1 / b 1 / c 2}
b 1: ok {b 1}
c 2: ok {c 2}
stanzas 3, skipped 0, duplicates 0, asked 3, broken 0
====
duplicates_and_skipped under --arch amd64 --explain
a 1.0 amd64 / a 1.0 / a 1.0 i386 {Depends: b (} / a 1.00 amd64
gives 0
a 1.0 amd64: ok {a 1.0}
a 1.00 amd64: ok {a 1.00}
stanzas 4, skipped 1, duplicates 1, asked 2, broken 0
====
own_dependencies under --arch amd64 --explain
s 1 {Depends: s, v; Provides: v}
gives 0
s 1: ok {s 1}
stanzas 1, skipped 0, duplicates 0, asked 1, broken 0";

pub static QUALIFIERS: &str = "any_of_an_unmarked_package under --arch amd64 --explain
a 1 {Depends: python3:any} / b 1 {Depends: n:i386} / python3 3 / n 1
gives 1
a 1: broken {missing: a 1 Depends: python3:any}
b 1: broken {missing: b 1 Depends: n:i386}
python3 3: ok {python3 3}
n 1: ok {n 1}
stanzas 4, skipped 0, duplicates 0, asked 4, broken 2
====
any_of_a_marked_package under --arch amd64 --explain
a 1 {Depends: python3:any} / b 1 {Depends: n:i386} / python3 3 {Multi-Arch: allowed} / n 1
gives 1
a 1: ok {a 1 / python3 3}
b 1: broken {missing: b 1 Depends: n:i386}
python3 3: ok {python3 3}
n 1: ok {n 1}
stanzas 4, skipped 0, duplicates 0, asked 4, broken 1
====
any_of_provided_names under --arch amd64 --explain
a 1 {Depends: v:any} / q 1 {Provides: v; Multi-Arch: allowed} / p 1 {Provides: v; Multi-Arch: foreign} / c 1 {Depends: p; Conflicts: v:any}
gives 1
a 1: ok {a 1 / q 1}
q 1: ok {q 1}
p 1: ok {p 1}
c 1: broken {depends: c 1 Depends: p / conflict: c 1 Conflicts: v:any}
stanzas 4, skipped 0, duplicates 0, asked 4, broken 1";

pub static SETTINGS: &str = "without_explanations under --arch amd64
a 1 amd64
gives 0
a 1 amd64: ok
stanzas 1, skipped 0, duplicates 0, asked 1, broken 0
====
essential_names_ignored under --arch amd64 --explain --ignore-essential
base 1 {Essential: yes} / x 1 {Conflicts: base}
gives 0
base 1: ok {base 1}
x 1: ok {x 1}
stanzas 2, skipped 0, duplicates 0, asked 2, broken 0
====
unknown_name under --arch amd64 --explain --checkonly zz
a 1 amd64
gives 66
debcheck: unknown package zz
====
names_in_the_order_of_the_index under --arch amd64 --explain --checkonly b,a,b
a 1 {Depends: b, c} / b 1 {Conflicts: c} / c 1
gives 1
a 1: broken {depends: a 1 Depends: b / depends: a 1 Depends: c / conflict: b 1 Conflicts: c}
b 1: ok {b 1}
stanzas 3, skipped 0, duplicates 0, asked 2, broken 1
====
failures under --arch amd64 --explain --failures
a 1 {Depends: b} / b 1 {Depends: c (>= 2)} / c 1
gives 1
a 1: broken {depends: a 1 Depends: b / missing: b 1 Depends: c (>= 2)}
b 1: broken {missing: b 1 Depends: c (>= 2)}
stanzas 3, skipped 0, duplicates 0, asked 3, broken 2
====
successes under --arch amd64 --explain --successes
a 1 {Depends: b} / b 1 {Depends: c (>= 2)} / c 1
gives 1
c 1: ok {c 1}
stanzas 3, skipped 0, duplicates 0, asked 3, broken 2
====
failures_and_successes under --arch amd64 --explain --failures --successes
a 1 {Depends: b} / b 1 {Depends: c (>= 2)} / c 1
gives 1
a 1: broken {depends: a 1 Depends: b / missing: b 1 Depends: c (>= 2)}
b 1: broken {missing: b 1 Depends: c (>= 2)}
c 1: ok {c 1}
stanzas 3, skipped 0, duplicates 0, asked 3, broken 2";
