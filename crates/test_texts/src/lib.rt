//! Texts that tests write shortly: `indexes` has the text of an index, `reports` the report on one.
//!
//! Their test stands in `deb_index_tests`, since a library with a test of its own is proved twice.
#![tactic(auto)]

mod indexes;
mod reports;

pub use indexes::{append_index, index_of};
pub use reports::report_of;
