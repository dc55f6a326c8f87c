//! What is wrong in the end, whoever needs it: the causes that the cores of broken packages have, the packages that each breaks, and what the index has
//! near the needs that no package meets.
//!
//! The modules, in reading order:
//!
//! - `near`: the packages that have the name of an alternative, or provide it.
//! - `stems`: what is left of names without their numbers; `similar`: the names of an index with such a stem.
//! - `wrongs` gives a number to what each constraint says, and to each cause;
//! - `gathered` gathers cores by the numbers of their causes, `cause_of_core` says what is wrong by a core, and `causes` lists them.
//! - `laws`: what holds of the packages that a cause frees.
#![tactic(auto)]

mod cause_of_core;
mod causes;
mod gathered;
pub mod laws;
mod near;
mod similar;
mod stems;
mod wrongs;

pub use causes::causes_of;
pub use gathered::Cause;
pub use near::{NearMiss, near_misses};
pub use similar::Similar;
pub use wrongs::is_missing;
