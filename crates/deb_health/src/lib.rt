//! What a healthy set of packages is, and what is found of a package.
//!
//! `specs/Health` defines healthy sets, and what sets of constraints admit, over the constraints of `deb_index`; `specs/Causes` what all causes of a
//! package are, and `specs/Verdicts` what its verdict is, and what is told of it where not all of that is wanted. `answer` has the verdict, `told`
//! what is told, `shown` an asked place with that; `laws` says what holds of the definitions alone.
#![tactic(auto)]

mod answer;
pub mod laws;
mod shown;
mod told;

pub use answer::Verdict;
pub use shown::Shown;
pub use told::{Cores, Told, Wanted};
