//! Walks, near misses and similar names, and what is written of them.

pub static EXAMPLES: &str = r#"own_version_does_not_meet under --arch amd64 --why --checkonly p
p 1 {Depends: a (>= 2) | b} / a 1 {Provides: b; Depends: gone}
gives 1
p 1: broken why {p 1 Depends: a (>= 2) | b / a 1 (provides b) / a 1 Depends: gone missing}
stanzas 2, skipped 0, duplicates 0, asked 1, broken 1
====
own_version_does_not_meet_in_JSON under --arch amd64 --why --checkonly p --format json
p 1 {Depends: a (>= 2) | b} / a 1 {Provides: b; Depends: gone}
gives 1
{"format":2,"options":["explain","checkonly","why"],"architecture":"amd64","report":[
{"package":"p","version":"1","architecture":"all","status":"broken",
 "reasons":[{"kind":"depends","package":"p","version":"1","field":"Depends","relation":"a (>= 2) | b",
 "met-by":[{"package":"a","version":"1","provides":["b"]}]},{"kind":"missing","package":"a","version":"1","field":"Depends","relation":"gone",
 "alternatives":["gone"],"present":[],"similar":[]}]}
],"stanzas":2,"skipped":0,"duplicates":0,"asked":1,"broken":1}
====
own_name_lacks_the_mark under --arch amd64 --why --checkonly p
p 1 {Depends: a:any | b} / a 1 {Provides: b; Depends: gone}
gives 1
p 1: broken why {p 1 Depends: a:any | b / a 1 (provides b) / a 1 Depends: gone missing}
stanzas 2, skipped 0, duplicates 0, asked 1, broken 1
====
first_entry_that_meets under --arch amd64 --why --checkonly p
p 1 {Depends: c (>= 2) | b} / a 1 {Provides: c:i386 (= 3), c, c (= 1), b, c (= 2); Depends: gone}
gives 1
p 1: broken why {p 1 Depends: c (>= 2) | b / a 1 (provides b) / a 1 Depends: gone missing}
stanzas 2, skipped 0, duplicates 0, asked 1, broken 1
====
own_name_provided_in_another_version under --arch amd64 --why --checkonly p
p 1 {Depends: a (>= 2)} / a 1 {Provides: a (= 2); Depends: gone}
gives 1
p 1: broken why {p 1 Depends: a (>= 2) / a 1 (provides a (= 2)) / a 1 Depends: gone missing}
stanzas 2, skipped 0, duplicates 0, asked 1, broken 1
====
near_misses_are_never_above under --arch amd64 --why --checkonly p
p 1 {Depends: x | y} / x 1 {Depends: x (>= 2)} / y 1 {Depends: gone (>= 2)} / v 1 {Provides: gone:i386 (= 2), gone (= 1), gone:any}
gives 1
p 1: broken why {p 1 Depends: x | y / >x 1 Depends: x (>= 2) missing; present: x 1 /
    >y 1 Depends: gone (>= 2) missing; present: v 1 (provides gone (= 1), gone:any)}
stanzas 4, skipped 0, duplicates 0, asked 1, broken 1
====
own_name_is_one_of_the_ten under --arch amd64 --why --checkonly p
p 1 {Depends: n0 (>= 2)} / v 1 {Provides: n0, n1, n2, n3, n4, n5, n6, n7, n8, n9, n10}
gives 1
p 1: broken why {p 1 Depends: n0 (>= 2) missing; present: v 1 (provides n0); similar: n1, n2, n3, n4, n5, n6, n7, n8, n9}
stanzas 2, skipped 0, duplicates 0, asked 1, broken 1
====
hyphens_are_no_stem under --arch amd64 --why --checkonly p,q
p 1 {Depends: 4-5} / 2-3 1 / q 1 {Depends: 4-5-k} / 2-3-k 1
gives 1
p 1: broken why {p 1 Depends: 4-5 missing}
q 1: broken why {q 1 Depends: 4-5-k missing; similar: 2-3-k}
stanzas 4, skipped 0, duplicates 0, asked 2, broken 2
====
group_that_stands_twice under --arch amd64 --failures --causes
p 1 {Depends: gone, gone}
gives 1
p 1: broken
stanzas 1, skipped 0, duplicates 0, asked 1, broken 1, causes 1
cause 1 1 reasons {missing: gone} needed-by {p 1 Depends: gone / p 1 Depends: gone} broken {p 1}"#;
