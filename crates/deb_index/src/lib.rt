//! The packages of a Debian package index, with the names that they have and provide.
//!
//! The modules, in reading order:
//!
//! - `limits`: how large an index may be, and what decides on time alone; `error`: why one is refused.
//! - `package`: one stanza, read as a package; `meets`: what it asks for, and which atoms it meets.
//! - `name_table`: names with their numbers; `names`: those that packages have or provide, with where each is found.
//! - `versions`: those of a name, in order; `lookup`: where names are found, and which packages there meet an atom; `satisfiers`: all places that meet
//!   some atoms.
//! - `memo`: which row an atom got; `role_rows`: the rows of one role while they are made, which `number_sets` keeps; `links`: the row of each group
//!   and of each entry, made once.
//! - `catalog`: the packages, with their names and what was counted; `index`: the index of a text, or of a text and a background.
//! - `answering`: which packages meet what is asked for; `constraint`: its constraints, and where each stands.
//! - `parts`: a text in parts, which several workers read side by side; `unlinked`: an index that lacks its rows, which they make side by side.
//! - `duplicates`: packages as they are taken in, each once; `builder`: an index while it is read, part by part; `pieces`: one whose text comes in
//!   pieces; `read`: one of whole texts.
//! - `laws`: what a background adds, and that the limits are those of the definitions.
#![tactic(auto)]

mod answering;
mod builder;
mod catalog;
mod constraint;
mod duplicates;
mod error;
mod index;
pub mod laws;
mod limits;
mod links;
mod lookup;
mod meets;
mod memo;
mod name_table;
mod names;
mod package;
mod parts;
mod pieces;
mod read;
mod role_rows;
mod satisfiers;
mod unlinked;
mod versions;

pub use constraint::Constraint;
pub use error::{BothError, IndexError, RelField};
pub use index::Index;
pub use limits::{PART_SIZE, STANZA_LIMIT, TEXT_LIMIT};
pub use meets::{meets_bound, provided_meets};
pub use package::Package;
pub use pieces::PartialIndex;
