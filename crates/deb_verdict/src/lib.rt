//! The closure and the verdict of a package of an index.
//!
//! `decision` has the public calls, `laws` what holds of the definitions alone. What is told of a package, and what a healthy set is,
//! `deb_health` says. `specs/Lib` names first the definitions that public contracts cite, then those of the inside. The modules, room by room:
//!
//! - `workspace` has the buffers that one verdict leaves to the next. What is told without a search, `deb_groundwork` tells.
//! - The closure: `gather` finds it, where no place is forced.
//! - The first healthy set: `gather` finds the candidates beside the places that are in every healthy set, and the needs that these leave open,
//!   `describe` has the encoder of `deb_encode` make clauses of all constraints that speak of these places, and `first_set` has the solver find the
//!   first true set of the clauses.
//! - Cores: `all_causes` finds the first set of constraints that no set meets, takes its cause out, and looks for the first core of what is left,
//!   until that admits a set. The crate `core_extract` takes out those that no refutation needs, and asks `question` whether a part of the
//!   constraints admits none: where `deb_groundwork` can't tell, `by_formula` does. It knows of each part, by the `core_formula` of the package,
//!   which is made once: each constraint that speaks of the closure (`kept_positions` lists them) is a group of clauses, the part says which
//!   groups are kept, and the solver which it used.
#![tactic(auto)]

mod all_causes;
mod by_formula;
mod core_formula;
mod decision;
mod describe;
mod first_set;
mod gather;
mod kept_positions;
mod known;
pub mod laws;
mod limits;
mod question;
mod workspace;

pub use deb_groundwork::{Groundwork, find_installable};
pub use deb_health::{Cores, Told, Verdict, Wanted};
pub use decision::{closure, told_in, verdict, verdict_in};
pub use workspace::Workspace;
