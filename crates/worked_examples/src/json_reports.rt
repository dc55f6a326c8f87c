//! Reports in JSON, literally.

ghost use Rattle.std.specs.Prelude.{◌≡◌, ◌<◌, ◌≤◌, IfOk};

use crate::example::{example_of, gives_under};
use devices::Std;
use run_settings::{Config, Format};
use std::alloc::{AllocError, Global};

pub static EXAMPLES: &str = r#"empty_index under --arch amd64 --format json --explain

gives 0
{"format":2,"options":["explain"],"architecture":"amd64","report":[
],"stanzas":0,"skipped":0,"duplicates":0,"asked":0,"broken":0}
====
nothing_broken under --arch amd64 --format json --explain
a 1 amd64
gives 0
{"format":2,"options":["explain"],"architecture":"amd64","report":[
{"package":"a","version":"1","architecture":"amd64","status":"ok","installation-set":[{"package":"a","version":"1"}]}
],"stanzas":1,"skipped":0,"duplicates":0,"asked":1,"broken":0}
====
all_kinds_of_reasons under --arch amd64 --format json --explain
e 1 {Essential: yes} / x 1 {Conflicts: e} / m 1 {Depends: gone (>= 2) | gone-too} / n 1 / n 2 amd64 / q 1 {Pre-Depends: n (= 1); Depends: r} /
r 1:1.0~b-1 {Depends: n (= 2)}
gives 1
{"format":2,"options":["explain"],"architecture":"amd64","report":[
{"package":"e","version":"1","architecture":"all","status":"ok","installation-set":[{"package":"e","version":"1"}]},
{"package":"x","version":"1","architecture":"all","status":"broken","reasons":[{"kind":"essential","name":"e"},
 {"kind":"conflict","package":"x","version":"1","field":"Conflicts","relation":"e"}]},
{"package":"m","version":"1","architecture":"all","status":"broken",
 "reasons":[{"kind":"missing","package":"m","version":"1","field":"Depends","relation":"gone (>= 2) | gone-too"}]},
{"package":"n","version":"1","architecture":"all","status":"ok","installation-set":[{"package":"e","version":"1"},{"package":"n","version":"1"}]},
{"package":"n","version":"2","architecture":"amd64","status":"ok","installation-set":[{"package":"e","version":"1"},{"package":"n","version":"2"}]},
{"package":"q","version":"1","architecture":"all","status":"broken",
 "reasons":[{"kind":"depends","package":"q","version":"1","field":"Pre-Depends","relation":"n (= 1)"},
 {"kind":"depends","package":"q","version":"1","field":"Depends","relation":"r"},
 {"kind":"depends","package":"r","version":"1:1.0~b-1","field":"Depends","relation":"n (= 2)"},{"kind":"versions","name":"n"}]},
{"package":"r","version":"1:1.0~b-1","architecture":"all","status":"ok","installation-set":[{"package":"e","version":"1"},
 {"package":"n","version":"2"},{"package":"r","version":"1:1.0~b-1"}]}
],"stanzas":7,"skipped":0,"duplicates":0,"asked":7,"broken":3}
====
without_explanations under --arch amd64 --format json
a 1 {Depends: b} / b 1 {Depends: c (>= 2)} / c 1
gives 1
{"format":2,"options":[],"architecture":"amd64","report":[
{"package":"a","version":"1","architecture":"all","status":"broken"},
{"package":"b","version":"1","architecture":"all","status":"broken"},
{"package":"c","version":"1","architecture":"all","status":"ok"}
],"stanzas":3,"skipped":0,"duplicates":0,"asked":3,"broken":2}
====
no_failures under --arch amd64 --format json --explain --failures
a 1 amd64
gives 0
{"format":2,"options":["explain","failures"],"architecture":"amd64","report":[
],"stanzas":1,"skipped":0,"duplicates":0,"asked":1,"broken":0}
====
successes under --arch amd64 --format json --explain --successes
a 1 {Depends: b} / b 1 {Depends: c (>= 2)} / c 1
gives 1
{"format":2,"options":["explain","successes"],"architecture":"amd64","report":[
{"package":"c","version":"1","architecture":"all","status":"ok","installation-set":[{"package":"c","version":"1"}]}
],"stanzas":3,"skipped":0,"duplicates":0,"asked":3,"broken":2}
====
causes under --arch amd64 --format json --failures --causes
a 1 {Depends: b} / b 1 {Depends: c (>= 2)} / c 1
gives 1
{"format":2,"options":["failures","causes"],"architecture":"amd64","report":[
{"package":"a","version":"1","architecture":"all","status":"broken"},
{"package":"b","version":"1","architecture":"all","status":"broken"}
],"stanzas":3,"skipped":0,"duplicates":0,"asked":3,"broken":2,"causes":[
{"packages":2,"frees":2,"reasons":[{"kind":"missing","relation":"c (>= 2)"}],
 "needed-by":[{"package":"b","version":"1","field":"Depends","relation":"c (>= 2)"}],"hits":[],"versions":[],
 "present":[{"package":"c","version":"1"}],"similar":[],"broken":[{"package":"a","version":"1"},{"package":"b","version":"1"}]}
]}
====
causes_of_all_kinds under --arch amd64 --format json --successes --causes --checkonly x,m,q,r
e 1 {Essential: yes} / x 1 {Conflicts: e} / m 1 {Depends: gone (>= 2) | gone-too} / n 1 / n 2 amd64 / q 1 {Pre-Depends: n (= 1); Depends: r} /
r 1:1.0~b-1 {Depends: n (= 2)}
gives 1
{"format":2,"options":["successes","checkonly","causes"],"architecture":"amd64","report":[
{"package":"r","version":"1:1.0~b-1","architecture":"all","status":"ok"}
],"stanzas":7,"skipped":0,"duplicates":0,"asked":4,"broken":3,"causes":[
{"packages":1,"frees":1,"reasons":[{"kind":"essential","name":"e"},
 {"kind":"conflict","package":"x","version":"1","field":"Conflicts","relation":"e"}],
 "needed-by":[],"hits":[{"package":"e","version":"1"}],"versions":[],"present":[],"similar":[],"broken":[{"package":"x","version":"1"}]},
{"packages":1,"frees":1,"reasons":[{"kind":"missing","relation":"gone (>= 2) | gone-too"}],
 "needed-by":[{"package":"m","version":"1","field":"Depends","relation":"gone (>= 2) | gone-too"}],"hits":[],"versions":[],"present":[],"similar":[],
 "broken":[{"package":"m","version":"1"}]},
{"packages":1,"frees":1,"reasons":[{"kind":"versions","name":"n"}],
 "needed-by":[],"hits":[],"versions":[{"package":"n","version":"1"},{"package":"n","version":"2"}],"present":[],"similar":[],
 "broken":[{"package":"q","version":"1"}]}
]}
====
near_by_provides under --arch amd64 --format json --failures --causes
a 1 {Depends: v (>= 3)} / p 1 {Provides: v (= 1), other, v} / v 1 {Provides: v (= 2)}
gives 1
{"format":2,"options":["failures","causes"],"architecture":"amd64","report":[
{"package":"a","version":"1","architecture":"all","status":"broken"}
],"stanzas":3,"skipped":0,"duplicates":0,"asked":3,"broken":1,"causes":[
{"packages":1,"frees":1,"reasons":[{"kind":"missing","relation":"v (>= 3)"}],
 "needed-by":[{"package":"a","version":"1","field":"Depends","relation":"v (>= 3)"}],"hits":[],"versions":[],
 "present":[{"package":"p","version":"1","provides":["v (= 1)","v"]},{"package":"v","version":"1"}],"similar":[],
 "broken":[{"package":"a","version":"1"}]}
]}
====
no_causes_in_an_empty_index under --arch amd64 --format json --causes

gives 0
{"format":2,"options":["causes"],"architecture":"amd64","report":[
],"stanzas":0,"skipped":0,"duplicates":0,"asked":0,"broken":0,"causes":[
]}
====
no_causes under --arch amd64 --format json --successes --causes
a 1 amd64
gives 0
{"format":2,"options":["successes","causes"],"architecture":"amd64","report":[
{"package":"a","version":"1","architecture":"amd64","status":"ok"}
],"stanzas":1,"skipped":0,"duplicates":0,"asked":1,"broken":0,"causes":[
]}
====
unknown_name under --arch amd64 --format json --checkonly zz
a 1 amd64
gives 66
debcheck: unknown package zz"#;

const STRANGE_ARCHITECTURE: &str = "Package: p
Version: 1
Architecture: a\"\\\u{1}\u{1f}\u{e9}
";

const STRANGE_REPORT: &str =
    r#"{"format":2,"options":[],"architecture":"a\"\\\u0001\u001fé","report":[
{"package":"p","version":"1","architecture":"a\"\\\u0001\u001fé","status":"ok"}
],"stanzas":1,"skipped":0,"duplicates":0,"asked":1,"broken":0}
"#;

/// The usual settings without explanations, in JSON, for the strange architecture.
fn strange_config(alloc: Global) -> Result<Config, AllocError>
    ensures workers { IfOk result (λ config. config.workers ≡ 4) }
    ensures chunk { IfOk result (λ config. config.chunk ≡ 64) }
{
    let mut config = Config::usual(alloc)?;
    config.arch = String::from_str(alloc, "a\"\\\u{1}\u{1f}\u{e9}")?;
    config.explain = false;
    config.format = Format::Json;
    Ok(config)
}

#[test]
fn architectures_are_escaped(rt: HostRuntime) {
    let mut reader = Std::new(STRANGE_ARCHITECTURE.as_bytes());
    let config = strange_config(rt.alloc()).expect(&rt, "no memory");
    let strange = example_of("", 0, STRANGE_ARCHITECTURE, STRANGE_REPORT);
    let fine = gives_under(&rt, rt.alloc(), &config, &mut reader, &strange);
    drop(config);
    assert!(rt; fine, "the document");
}
