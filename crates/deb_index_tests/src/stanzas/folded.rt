//! A text with a folded field and a comment inside it.

/// Three stanzas; a field of the first is folded, with a comment between its lines.
pub const FOLDED: &[u8] = b"Package: a
Version: 1
Architecture: all
DEPENDS: b,
# a note
 c (< 2)
 ,

Package: b
Version: 1
Architecture: all

Package: c
Version: 2
Architecture: all
";

/// The names and values of the fields of its stanzas.
pub static FOLDED_FIELDS: [&[(&str, &str)]; 3] = [
    &[
        ("Package", "a"),
        ("Version", "1"),
        ("Architecture", "all"),
        ("DEPENDS", "b,\n c (< 2)\n ,"),
    ],
    &[("Package", "b"), ("Version", "1"), ("Architecture", "all")],
    &[("Package", "c"), ("Version", "2"), ("Architecture", "all")],
];

/// The values of some of these fields, by the stanza's number.
pub static FOLDED_VALUES: [(usize, &str, Option<&str>); 4] = [
    (0, "depends", Some("b,\n c (< 2)\n ,")),
    (0, "essential", None),
    (1, "package", Some("b")),
    (2, "VERSION", Some("2")),
];
