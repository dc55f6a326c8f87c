//! How large an index may be, and what decides on time alone.

/// The most bytes of a text that `Index::read` takes, of each that `Index::read_both` takes, and of all pieces that a `PartialIndex` takes.
pub const TEXT_LIMIT: usize = 1_073_741_824;

/// The most stanzas of a text, or of a foreground and a background together, and so the most packages of an index.
pub const STANZA_LIMIT: u32 = 4_194_304;

/// The least bytes of a text that are worth a worker of their own: a choice of time alone, for `PartialIndex::take`.
pub const PART_SIZE: usize = 65_536;

/// The least packages whose rows are worth a worker of their own: a choice of time alone.
pub(crate) const RANGE_SIZE: u32 = 1024;

/// How many atoms are remembered with their rows, a choice of time alone: a power of two near the number of packages that ask, within these bounds.
pub(crate) const LEAST_SLOTS: usize = 8192;

pub(crate) const MOST_SLOTS: usize = 131_072;
