//! Sets of numbers: what they are, which of two comes first, and a set that is kept as a list; and rows of numbers.
//!
//! `specs/Sets` defines sets of numbers, their order and lists to which numbers come, `specs/Rows` rows of numbers; `proofs` has lemmas,
//! too, on lists that are gone through, for the crates above. The modules, in reading order:
//!
//! - `sparse_set`: the set of numbers that work is done on;
//! - `rising`: brings a list of numbers in order;
//! - `rows`: lists of numbers, one behind the other, of which one serves all who ask for the same.
#![tactic(auto)]

mod rising;
mod rows;
mod sparse_set;

pub use rising::sort_once;
pub use rows::Rows;
pub use sparse_set::SparseSet;
