//! Whole programs that tell all causes, and reasons beside the first ones: all causes are told, a core is walked from its package, and packages without
//! reasons are not asked for alone.

/// Two needs that no package meets are in the way of the first and of the second.
pub static TWO_CAUSES: &str = "a 1 {Depends: x, y} / b 1 {Depends: a} / c 1";

/// Neither of the causes frees a package.
pub static ALL_REASONS: &str = r#"|--arch|amd64|--all-reasons|--failures gives 1
a 1: broken {missing: a 1 Depends: y} also {missing: a 1 Depends: x}
b 1: broken {missing: a 1 Depends: y / depends: b 1 Depends: a} also {missing: a 1 Depends: x / depends: b 1 Depends: a}
stanzas 3, skipped 0, duplicates 0, asked 3, broken 2
====
|--all-reasons|--arch|amd64|--format=json|--checkonly|a,c gives 1
{"format":2,"options":["explain","checkonly","all-reasons"],"architecture":"amd64","report":[
{"package":"a","version":"1","architecture":"all","status":"broken",
 "reasons":[{"kind":"missing","package":"a","version":"1","field":"Depends","relation":"y"}],
 "also":[[{"kind":"missing","package":"a","version":"1","field":"Depends","relation":"x"}]]},
{"package":"c","version":"1","architecture":"all","status":"ok","installation-set":[{"package":"c","version":"1"}]}
],"stanzas":3,"skipped":0,"duplicates":0,"asked":2,"broken":1}
====
|--arch|amd64|--causes|--successes gives 1
c 1: ok
stanzas 3, skipped 0, duplicates 0, asked 3, broken 2, causes 2
cause 2 0 reasons {missing: y} needed-by {a 1 Depends: y} broken {a 1 / b 1}
cause 2 0 reasons {missing: x} needed-by {a 1 Depends: x} broken {a 1 / b 1}
====
|--arch|amd64|--why|--successes gives 64
error: the argument '--why' cannot be used with '--successes' unless '--failures' is there, too

For more information, try '--help'.
====
|--successes|--all-reasons|--arch|amd64|--causes gives 64
error: the argument '--all-reasons' cannot be used with '--successes' unless '--failures' is there, too

For more information, try '--help'."#;

/// The example of the README.
pub static EDITOR: &str =
    "dictionary 1 {Conflicts: gui (<< 5)} / editor 2.1 amd64 {Depends: gui, speller (>= 3)} / gui 4.0 amd64 /
speller 3.2 amd64 {Depends: word-list | dictionary}";

pub static WHY: &str = r#"|--arch|amd64|--failures|--why gives 1
editor 2.1 amd64: broken why {editor 2.1 Depends: gui / gui 4.0 / editor 2.1 Depends: speller (>= 3) / speller 3.2 Depends: word-list | dictionary /
    dictionary 1 Conflicts: gui (<< 5) hits gui 4.0 (above)}
stanzas 4, skipped 0, duplicates 0, asked 4, broken 1
====
|--why|--arch|amd64|--format|json|--failures gives 1
{"format":2,"options":["explain","failures","why"],"architecture":"amd64","report":[
{"package":"editor","version":"2.1","architecture":"amd64","status":"broken",
 "reasons":[{"kind":"conflict","package":"dictionary","version":"1","field":"Conflicts","relation":"gui (<< 5)",
 "hits":[{"package":"gui","version":"4.0"}]},{"kind":"depends","package":"editor","version":"2.1","field":"Depends","relation":"gui",
 "met-by":[{"package":"gui","version":"4.0"}]},{"kind":"depends","package":"editor","version":"2.1","field":"Depends","relation":"speller (>= 3)",
 "met-by":[{"package":"speller","version":"3.2"}]},
 {"kind":"depends","package":"speller","version":"3.2","field":"Depends","relation":"word-list | dictionary",
 "met-by":[{"package":"dictionary","version":"1"}]}]}
],"stanzas":4,"skipped":0,"duplicates":0,"asked":4,"broken":1}"#;
