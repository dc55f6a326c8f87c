//! How far is looked. Each of these decides on time alone: whatever it is, the answers are the same. Figures are of docs/DECISIONS.md.

/// Of a package at most so many versions and needs are looked at, where that is no more than a hint.
pub(crate) const FEW: u32 = 64;

/// Of a need at most so many alternatives are looked at.
pub(crate) const ALTERNATIVES: usize = 64;

/// Of an alternative's name at most so many bearers are looked at: as many as a row has. With all of 5,000 it takes 2.87 s for 0.02.
pub(crate) const BEARERS: usize = 256;

/// How often at most all places are gone through for hopeless ones, in rising order and in falling order by turns. Of the 32,381 packages that are
/// broken in bookworm without a hundredth of its packages, they find 32,380.
pub(crate) const PASSES: u32 = 32;

/// How often at most, in all, as much as the whole index comes to the base set, or is taken out again.
pub(crate) const BASE_SET_TIMES: u64 = 2;

/// The same for all large sets together.
pub(crate) const LARGE_SETS_TIMES: u64 = 8;

/// How many large sets are found at most: eight times as many took the same time.
pub(crate) const LARGE_SETS: u32 = 64;

/// How many sets a witness tries at most: with one alone, bookworm with causes takes 1,723 million instructions for 1,454.
pub(crate) const WITNESS_TRIES: u32 = 16;

/// At most so many constraints are newly asked of a set that goes on growing. Where they are more, most are of packages that are not in it.
pub(crate) const NEWLY_ASKED: u32 = 16;
