//! Words of command lines.

use std::alloc::{AllocError, Global};

/// The words, each of which has a `|` before it.
pub fn words_in(alloc: Global, line: &str) -> Result<Vec<String>, AllocError> {
    let mut words = Vec::new(alloc);
    for word in line.split('|').skip(1) {
        words.push(String::from_str(alloc, word)?)?;
    }
    Ok(words)
}
