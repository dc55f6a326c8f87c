//! Whole programs that are asked what became of an earlier index.

/// In the earlier index `a`, `b` and `c` are broken, and `d` isn't.
pub const EARLIER: &[u8] = b"Package: a
Version: 1
Architecture: all
Depends: x

Package: b
Version: 2
Architecture: all
Depends: y

Package: c
Version: 1
Architecture: all
Depends: z

Package: d
Version: 1
Architecture: all
";

/// `a` is mended and `b` gone, `c` is broken as before, `d` and `e` are newly broken.
pub const INDEX: &[u8] = b"Package: a
Version: 2
Architecture: all

Package: c
Version: 2
Architecture: all
Depends: z

Package: d
Version: 1
Architecture: all
Depends: y

Package: e
Version: 1
Architecture: all
Depends: d
";

/// What `b` and `d` need.
pub const BACKGROUND_OF_BOTH: &[u8] = b"Package: y\nVersion: 1\nArchitecture: all\n";

/// The same stanzas as of the earlier index, for another architecture.
pub const ELSEWHERE: &[u8] = b"Package: c
Version: 1
Architecture: arm64
Depends: z

Package: d
Version: 1
Architecture: arm64
Depends: y
";

/// The earlier index, cut in the middle of its second stanza.
pub const CUT: &[u8] =
    b"Package: a\nVersion: 1\nArchitecture: all\nDepends: x\n\nPackage: b\nVersion: 2\nArchi";

/// `a` and `b` are gone, `c` is broken as before, and `d` newly broken, each by two needs.
pub static TWO_NEEDS: &str = "c 2 {Depends: z, v} / d 1 {Depends: w, y}";

pub static ALL_OF_NEWS: &str = "|--arch|amd64|--causes|--all-reasons|--since|old gives 1
d 1: broken {missing: d 1 Depends: y} also {missing: d 1 Depends: w}
stanzas 2, skipped 0, duplicates 0, asked 2, broken 2, newly-broken 1, mended {}, gone {a 1 / b 2}, causes 2
cause 1 0 reasons {missing: y} needed-by {d 1 Depends: y} broken {d 1}
cause 1 0 reasons {missing: w} needed-by {d 1 Depends: w} broken {d 1}";

/// What any number of workers finds, whatever is to be shown. A name that the earlier index doesn't have is no fault, and packages that are broken as
/// before leave the status at 0. An index of another architecture has no package, and so none that was broken. With the background behind each index `b` was
/// not broken, and `d` isn't.
pub static NEWS: &str = r#"|--arch|amd64|--since|old gives 1
d 1: broken
e 1: broken
stanzas 4, skipped 0, duplicates 0, asked 4, broken 3, newly-broken 2, mended {a 1}, gone {b 2}
====
|--arch|amd64|--since=old|--failures|--workers|1 gives 1
d 1: broken
e 1: broken
stanzas 4, skipped 0, duplicates 0, asked 4, broken 3, newly-broken 2, mended {a 1}, gone {b 2}
====
|--arch|amd64|--workers|64|--chunk|1|--since|old gives 1
d 1: broken
e 1: broken
stanzas 4, skipped 0, duplicates 0, asked 4, broken 3, newly-broken 2, mended {a 1}, gone {b 2}
====
|--arch|amd64|--since|old|--format|json gives 1
{"format":2,"options":["since"],"architecture":"amd64","report":[
{"package":"d","version":"1","architecture":"all","status":"broken"},
{"package":"e","version":"1","architecture":"all","status":"broken"}
],"stanzas":4,"skipped":0,"duplicates":0,"asked":4,"broken":3,"newly-broken":2,"mended":[{"package":"a","version":"1"}],"gone":[{"package":"b","version":"2"}]}
====
|--arch|amd64|--explain|--causes|--since|old gives 1
d 1: broken {missing: d 1 Depends: y}
e 1: broken {missing: d 1 Depends: y / depends: e 1 Depends: d}
stanzas 4, skipped 0, duplicates 0, asked 4, broken 3, newly-broken 2, mended {a 1}, gone {b 2}, causes 1
cause 2 2 reasons {missing: y} needed-by {d 1 Depends: y} broken {d 1 / e 1}
====
|--arch|amd64|--causes|--bg|behind|--since|old gives 0
stanzas 5, skipped 0, duplicates 0, background 1, asked 4, broken 1, newly-broken 0, mended {a 1}, gone {}, causes 0
====
|--arch|amd64|--since|old|--checkonly|e gives 1
e 1: broken
stanzas 4, skipped 0, duplicates 0, asked 1, broken 1, newly-broken 1, mended {}, gone {}
====
|--arch|amd64|--since|old|--checkonly|c,a gives 0
stanzas 4, skipped 0, duplicates 0, asked 2, broken 1, newly-broken 0, mended {a 1}, gone {}
====
|--arch|amd64|--since|same gives 0
stanzas 4, skipped 0, duplicates 0, asked 4, broken 3, newly-broken 0, mended {}, gone {}
====
|--arch|amd64|--since|elsewhere gives 1
c 2: broken
d 1: broken
e 1: broken
stanzas 4, skipped 0, duplicates 0, asked 4, broken 3, newly-broken 3, mended {}, gone {}"#;

/// Faults of the index and of the asked names go before those of the earlier index; that an index has no package goes behind an unknown name. An earlier
/// index without a package is no fault.
pub static ON_INDEX: &str = "|--arch|amd64|--since|cut gives 65
debcheck: earlier index: stanza 2: bad line
====
|--arch|amd64|--since|old|--checkonly|zz gives 66
debcheck: unknown package zz
====
|--arch|amd64|--bg|cut|--since|cut gives 65
debcheck: earlier index: stanza 2: bad line";

/// The first stanza has a fault.
pub static ON_FAULTY: &str = "|--arch|amd64|--since|cut|--checkonly|zz gives 65
debcheck: earlier index: stanza 2: bad line
====
|--arch|amd64|--since|old|--checkonly|zz gives 65
debcheck: stanza 1: missing field
====
|--arch|amd64|--bg|cut|--since|old gives 65
debcheck: background: stanza 2: bad line";

pub static ON_EMPTY: &str = "|--arch|amd64|--since|old gives 65
debcheck: the index is empty
====
|--arch|amd64|--strict|--quiet|--since|old gives 65
debcheck: the index is empty";

/// One stanza, of another architecture.
pub static ON_FOREIGN: &str = "|--arch|amd64|--since|old gives 65
debcheck: no stanza is of this architecture or of all
====
|--arch|amd64|--since|old|--bg|behind gives 65
debcheck: nothing is asked
====
|--arch|amd64|--since|old|--checkonly|c gives 66
debcheck: unknown package c";
