//! Examples that any number of workers answer by the same bytes, whatever the chunk.

/// Seventeen stanzas, six of whose packages are broken.
pub static SAMPLE: &str = "sample under --arch amd64 --explain
r3a 1 {Depends: r3b} / r3b 1 {Depends: r3c (>= 2)} / r3c 1 / r4a 1 {Depends: r4b | r4c} / r4b 1 / r4c 1 / r5a 1 {Depends: r5x, r5y} /
r6a 1 {Depends: r6b, r6c} / r6b 1 {Conflicts: r6c} / r6c 1 / r7m 1 {Provides: r7v; Conflicts: r7v} / r7n 1 {Provides: r7v; Conflicts: r7v} /
r7u 1 {Depends: r7m, r7n} / r8n 1 / r8n 2 / r8a 1 {Depends: r8n (= 1), r8b} / r8b 1 {Depends: r8n (= 2)}
gives 1
r3a 1: broken {depends: r3a 1 Depends: r3b / missing: r3b 1 Depends: r3c (>= 2)}
r3b 1: broken {missing: r3b 1 Depends: r3c (>= 2)}
r3c 1: ok {r3c 1}
r4a 1: ok {r4a 1 / r4c 1}
r4b 1: ok {r4b 1}
r4c 1: ok {r4c 1}
r5a 1: broken {missing: r5a 1 Depends: r5y}
r6a 1: broken {depends: r6a 1 Depends: r6b / depends: r6a 1 Depends: r6c / conflict: r6b 1 Conflicts: r6c}
r6b 1: ok {r6b 1}
r6c 1: ok {r6c 1}
r7m 1: ok {r7m 1}
r7n 1: ok {r7n 1}
r7u 1: broken {conflict: r7n 1 Conflicts: r7v / depends: r7u 1 Depends: r7m / depends: r7u 1 Depends: r7n}
r8n 1: ok {r8n 1}
r8n 2: ok {r8n 2}
r8a 1: broken {depends: r8a 1 Depends: r8n (= 1) / depends: r8a 1 Depends: r8b / depends: r8b 1 Depends: r8n (= 2) / versions: r8n}
r8b 1: ok {r8n 2 / r8b 1}
stanzas 17, skipped 0, duplicates 0, asked 17, broken 6";

/// Some workers, and how many packages each takes at once.
pub static SAMPLE_CREWS: [&str; 13] = [
    "",
    "--workers 1 --chunk 1",
    "--workers 1 --chunk 2",
    "--workers 1 --chunk 1000",
    "--workers 2 --chunk 1",
    "--workers 2 --chunk 2",
    "--workers 2 --chunk 1000",
    "--workers 3 --chunk 1",
    "--workers 3 --chunk 2",
    "--workers 3 --chunk 1000",
    "--workers 64 --chunk 1",
    "--workers 64 --chunk 2",
    "--workers 64 --chunk 1000",
];

// Two versions of one name, of which one excludes what needs the other; a package that needs what isn't there, and one whose needs exclude each other.
/// A report that tells no set is the same, whether a set of its packages was looked for or not: first failures with their reasons, then blocks alone.
pub static WITHOUT_SETS: &str = "failures_without_sets under --arch amd64 --explain --failures
editor 2 amd64 {Depends: gui, speller} / gui 1 amd64 / gui 2 amd64 {Conflicts: speller} / lost 1 amd64 {Depends: nowhere} / speller 1 amd64 /
split 1 amd64 {Depends: gui (>= 2), speller}
gives 1
lost 1 amd64: broken {missing: lost 1 Depends: nowhere}
split 1 amd64: broken {conflict: gui 2 Conflicts: speller / depends: split 1 Depends: gui (>= 2) / depends: split 1 Depends: speller}
stanzas 6, skipped 0, duplicates 0, asked 6, broken 2
====
blocks_without_sets under --arch amd64
editor 2 amd64 {Depends: gui, speller} / gui 1 amd64 / gui 2 amd64 {Conflicts: speller} / lost 1 amd64 {Depends: nowhere} / speller 1 amd64 /
split 1 amd64 {Depends: gui (>= 2), speller}
gives 1
editor 2 amd64: ok
gui 1 amd64: ok
gui 2 amd64: ok
lost 1 amd64: broken
speller 1 amd64: ok
split 1 amd64: broken
stanzas 6, skipped 0, duplicates 0, asked 6, broken 2";

/// Packages of a background are used and not asked, and essential ones may stand there.
pub static BACKGROUNDS: &str = r#"met_by_the_background under --arch amd64 --bg others --explain
a 1 {Depends: b}
with
b 1 {Depends: c} / b 2
gives 0
a 1: ok {a 1 / b 2}
stanzas 3, skipped 0, duplicates 0, background 2, asked 1, broken 0
====
a_package_of_both_is_the_first under --arch amd64 --bg others
Package: a
Version: 1
Architecture: amd64
with
a 1 {Depends: c} / zz 1
gives 0
a 1 amd64: ok
stanzas 3, skipped 0, duplicates 1, background 1, asked 1, broken 0
====
empty_background under --arch amd64 --bg others
a 1 amd64
with

gives 0
a 1 amd64: ok
stanzas 1, skipped 0, duplicates 0, background 0, asked 1, broken 0
====
no_index_before_the_background under --arch amd64 --bg others --explain

with
b 1 {Depends: c} / b 2
gives 0
stanzas 2, skipped 0, duplicates 0, background 2, asked 0, broken 0
====
another_version_and_another_architecture under --arch amd64 --bg others --explain --checkonly b
b 3
with
b 4 i386 / b 5
gives 0
b 3: ok {b 3}
stanzas 3, skipped 1, duplicates 0, background 1, asked 1, broken 0
====
in JSON under --arch amd64 --bg others --explain --format json
a 1 {Depends: b}
with
b 1 {Depends: c} / b 2
gives 0
{"format":2,"options":["explain","bg"],"architecture":"amd64","report":[
{"package":"a","version":"1","architecture":"all","status":"ok","installation-set":[{"package":"a","version":"1"},{"package":"b","version":"2"}]}
],"stanzas":3,"skipped":0,"duplicates":0,"background":2,"asked":1,"broken":0}
====
essential_in_the_background under --arch amd64 --bg others --explain
x 1 {Conflicts: base}
with
base 1 {Essential: yes}
gives 1
x 1: broken {essential: base / conflict: x 1 Conflicts: base}
stanzas 2, skipped 0, duplicates 0, background 1, asked 1, broken 1
====
essential_and_ignored under --arch amd64 --bg others --explain --ignore-essential
x 1 {Conflicts: base}
with
base 1 {Essential: yes}
gives 0
x 1: ok {x 1}
stanzas 2, skipped 0, duplicates 0, background 1, asked 1, broken 0"#;

pub static REFUSED_BACKGROUNDS: &str =
    "name_of_the_background under --arch amd64 --bg others --checkonly zz
a 1 amd64
with
a 1 {Depends: c} / zz 1
gives 66
debcheck: unknown package zz
====
first_unknown_name under --arch amd64 --bg others --checkonly a,b,zz
a 1 {Depends: b}
with
b 1 {Depends: c} / b 2
gives 66
debcheck: unknown package b
====
bad_line_of_the_background under --arch amd64 --bg others --explain
a 1 amd64
with
 x
gives 65
debcheck: background: stanza 1: bad line
====
fault_of_the_index_first under --arch amd64 --bg others --explain
 x
with
 x
gives 65
debcheck: stanza 1: bad line
====
stanzas_of_the_background_count_from_1 under --arch amd64 --bg others --checkonly nobody
b 1 {Depends: c} / b 2
with
c 1 / d 1 {Breaks: e |}
gives 65
debcheck: background: stanza 2: bad relation in Breaks
====
duplicate_of_the_index_with_a_fault under --arch amd64 --bg others --explain
a 1 amd64
with
Package: a
Version: 1
Architecture: all
Depends: b (>=
gives 65
debcheck: background: stanza 1: bad relation in Depends";

/// One worker, and several, each of which takes one package at once or all.
pub static CREWS: [&str; 4] = [
    "--workers 1 --chunk 1",
    "--workers 1 --chunk 64",
    "--workers 3 --chunk 64",
    "--workers 64 --chunk 1",
];
