//! What decides on time alone: whatever it is, the answers are the same. Figures are of docs/DECISIONS.md.

/// After so many questions about a package the others may be put to its formula alone, which may tell of several constraints that they are needed.
pub(crate) const MANY: u32 = 32;

/// It is worth that where the last refutation used at least one in so many of the formula's constraints.
pub(crate) const SHARE: usize = 16;

/// After so many causes of a package in a row that its formula alone showed, what is left behind a cause is put to it first.
pub(crate) const IN_A_ROW: u32 = 2;
