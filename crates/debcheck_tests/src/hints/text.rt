//! A text that was told, or none, against the wanted one.

use std::process::Abort;

/// The text is the wanted one; where that is empty, there is none.
pub(crate) fn expect_text(
    rt: &(impl Abort + AllocGlobal),
    of: &str,
    text: Option<Vec<u8>>,
    wanted: &str,
) {
    let same = match text {
        Some(text) => text.as_slice() == wanted.as_bytes(),
        None => wanted.is_empty(),
    };
    assert!(rt; same, "another text than {wanted:?} of {of:?}");
}
