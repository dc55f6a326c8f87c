//! The first minimal set of numbers that fails, out of numbers of which all together fail.
//!
//! The numbers stand for constraints: sets fail that cannot be met, and a larger set fails too. What is found is the first unsatisfiable
//! core, by deletion with refinement by refutations: numbers go out by rising number, and each refutation says which numbers it did without.
//!
//! - `reduction` has all of it: the `Question` whether some numbers fail, `first_failing`, which asks it, and `next_of` for those who answer.
#![tactic(auto)]

mod reduction;

pub use reduction::{Question, first_failing, next_of};
