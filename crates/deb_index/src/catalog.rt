//! The packages of an index, and what is kept beside them.
use crate::names::Names;
use crate::package::Package;

/// Packages by place, with their names, and what was counted: what an index has from its first stanza on.
#[derive(Drop)]
pub(crate) struct Catalog {
    pub(crate) arch: Vec<u8>,
    pub(crate) with_essential: bool,
    pub(crate) stanzas: u32,
    pub(crate) skipped: u32,
    pub(crate) duplicates: u32,
    pub(crate) foreground: u32,
    /// The number of each package's name.
    pub(crate) numbers: Vec<u32>,
    pub(crate) names: Names,
    // Given back last: at a larger piece that came back behind its many small ones, the allocator would go through all of them.
    pub(crate) packages: Vec<Package>,
}
