//! An index of three packages, places of an index, and the groundwork of one that has them.

ghost use Rattle.std.specs.Prelude.{◌<◌, All, IfOk, length};

use deb_index::{Index, IndexError};
use deb_verdict::Groundwork;
use std::alloc::{AllocError, Global};
use std::process::Abort;

/// Three packages; the first depends on the second or the third.
pub const THREE_PACKAGES: &[u8] = b"Package: a
Version: 1
Architecture: all
Depends: b | c

Package: b
Version: 1
Architecture: all

Package: c
Version: 1
Architecture: all
";

/// The index of a text for amd64.
///
/// # Errors
///
/// Want of memory.
pub fn index_of(rt: &(impl Abort + AllocGlobal), text: &[u8]) -> Result<Index, AllocError> {
    assert!(rt; text.len() <= 2_000, "a longer text");
    match Index::read(rt.alloc(), text, "amd64", true) {
        Ok(index) => Ok(index),
        Err(IndexError::Memory) => Err(AllocError),
        Err(_) => panic!(rt; "the text has a fault"),
    }
}

/// Stops at places that the index does not have.
pub fn check_places(rt: &impl Abort, index: &Index, places: &[u32])
    ensures { All (λ place. place < length index.now.packages) places.now }
{
    for place in places {
        assert!(rt; *place < index.len(), "no such place");
    }
}

/// The groundwork of an index that has these places.
///
/// # Errors
///
/// Want of memory.
pub fn ground_of<'a>(
    alloc: Global,
    index: &'a Index,
    places: &[u32],
) -> Result<Groundwork<'a>, AllocError>
    requires { All (λ place. place < length index.now.packages) places.now }
    ensures { IfOk result (λ groundwork. All (λ place. place < length groundwork.index.now.packages) places.now) }
{
    Ok(Groundwork::new(alloc, index)?)
}
