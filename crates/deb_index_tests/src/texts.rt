//! Texts that several tests read.

use std::process::Abort;

pub const VERSIONED: &[u8] = b"Package: foo
Version: 1
Architecture: all
Depends: bar (>= 1.0)

Package: bar
Version: 0.9
Architecture: all

Package: bar-plus
Version: 1
Architecture: all
Provides: bar (= 1.0)
";

pub const SPELLED: &[u8] = b"Package: a
Version: 1.0
Architecture: amd64

Package: a
Version: 1.0
Architecture: all

Package: a
Version: 1.0
Architecture: i386
Depends: b (

Package: a
Version: 1.00
Architecture: amd64
";

pub const TWICE: &[u8] = b"Package: v
Version: 1
Architecture: all
Provides: v (= 2), v

Package: w
Version: 1
Architecture: all
Provides: x, v:amd64, v:any (= 5), v:all, v:i386 (= 6)

Package: v
Version: 3
Architecture: amd64
";

pub const COPY: &[u8] = b"Package: a\nVersion: 1\nArchitecture: all\n\n";

/// Adds copies of one stanza, with an empty line behind each.
pub fn add_copies(rt: &impl Abort, text: &mut Vec<u8>, count: u32) {
    for _ in 0..count {
        text.extend_from_slice(COPY).expect(rt, "no memory");
    }
}

pub fn copies(rt: &(impl Abort + AllocGlobal), count: u32) -> Vec<u8> {
    let mut text = Vec::new(rt.alloc());
    add_copies(rt, &mut text, count);
    text
}
