//! Texts that lie in the value where they are short.

ghost use Rattle.std.specs.Prelude.{◌≡◌, ◌≤◌, length, IfOk, IsOk};
ghost use Rattle.deb_relation.specs.SmallText.{short_len};

use std::alloc::{AllocError, Global};
use std::marker::Model;

/// How many bytes lie in the value at most. Most names and versions have fewer.
const SHORT_LEN: usize = 30;

/// Where the bytes of a text lie.
#[derive(Drop)]
enum Bytes {
    /// The first so many of these.
    Short(u8, [u8; SHORT_LEN]),
    Long(Vec<u8>),
}

/// A text, which lies in the value where it has at most 30 bytes, and on the heap else. Contracts see it as its bytes.
#[derive(Drop)]
pub struct SmallText {
    bytes: Bytes,
}

impl Model for SmallText {
    ghost use Rattle.std.specs.Prelude.{ℕ, List};
    ghost use Rattle.deb_relation.specs.SmallText.{IsHeld, bytes_in};

    ghost Value = { List ℕ };

    ghost view = { λ t. bytes_in t.bytes };

    ghost invariant = { λ t. IsHeld t.bytes };
}

impl SmallText {
    /// A copy of a text. The error is want of memory, which no text of at most 30 bytes meets.
    pub fn from_slice(alloc: Global, text: &[u8]) -> Result<SmallText, AllocError>
        ensures value { IfOk result (λ t. t ≡ text.now) }
        ensures succeeds { length text.now ≤ short_len → IsOk result }
    {
        if text.len() > SHORT_LEN {
            let bytes = Bytes::Long(Vec::from_slice(alloc, text)?);
            return Ok(SmallText { bytes });
        }
        let mut bytes = [0; SHORT_LEN];
        bytes[..text.len()].copy_from_slice(text);
        let bytes = Bytes::Short(text.len() as u8, bytes);
        Ok(SmallText { bytes })
    }

    /// Its bytes.
    pub fn as_slice(&self) -> &[u8]
        ensures value { result.now ≡ self.now }
    {
        match &self.bytes {
            Bytes::Short(len, bytes) => &bytes[..*len as usize],
            Bytes::Long(bytes) => bytes.as_slice(),
        }
    }
}
