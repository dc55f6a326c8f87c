//! Texts of any length.

use deb_relation::SmallText;
use std::process::Abort;

fn expect_kept(rt: &(impl Abort + AllocGlobal), text: &[u8]) {
    let copied = SmallText::from_slice(rt.alloc(), text).expect(rt, "no memory");
    assert!(rt; copied.as_slice() == text);
}

/// The longest text that lies in the value, and the shortest that does not.
#[test]
fn keeps_texts_of_any_length(rt: HostRuntime) {
    expect_kept(&rt, b"");
    expect_kept(&rt, &[b'n'; 30]);
    expect_kept(&rt, &[b'n'; 31]);
}
