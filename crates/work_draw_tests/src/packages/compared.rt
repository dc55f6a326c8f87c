//! A text or a value, compared with what is expected.

use std::alloc::{AllocError, AllocGlobal};
use std::fmt::Debug;
use std::process::Abort;

/// Compares what is found with what is expected.
pub fn compare(rt: &impl Abort, name: &str, found: &str, wanted: &str) {
    assert!(rt; found == wanted, "{name}: {found}, not {wanted}");
}

/// Compares a value, with a word before it, with what is expected.
pub fn compare_value<T: Debug>(
    rt: &(impl Abort + AllocGlobal),
    name: &str,
    word: &str,
    value: &T,
    wanted: &str,
) -> Result<(), AllocError> {
    let found = format!(in rt.alloc(); "{word} {value:?}")?;
    compare(rt, name, &found, wanted);
    Ok(())
}
