//! What is told of the packages of an index, and of parts of its constraints, without a search.
//!
//! `deb_verdict` searches for what is left. `specs/Lib` names first the definitions that its contracts cite, then those of the inside. The modules:
//!
//! - Common to all: `limits` has how far is looked, where that decides on time alone; `rows` tells what a set has of a row of places, `answering`
//!   whether it answers a need, be there a row or not; a `part` is some of the constraints of an index, by their positions.
//! - The `groundwork` knows what all verdicts of an index have in common: `forced` finds places that are in every healthy set, `hopeless` places that
//!   no healthy set has, and a `base_set` has many packages, each with what it asks for.
//! - One way sets grow without a search: `growth`, on a base set, by a `choice` of one answer for each need. Nothing is claimed of it. A `large_set`
//!   grows so package by package; what it comes to is looked up, and is a base set. `installable` marks the packages of such sets.
//! - Whether a part admits none with a package. `witness` sees that some set meets it, which grows, and is looked up by `healthy_set`. `propagation` refutes
//!   it by what the package asks for with no choice, down to a `conflict`; `derivation` has the steps of such a refutation, and checks them.
#![tactic(auto)]

mod answering;
mod base_set;
mod choice;
mod conflict;
mod derivation;
mod forced;
mod groundwork;
mod growth;
mod healthy_set;
mod hopeless;
mod installable;
mod large_set;
mod limits;
mod part;
mod propagation;
mod rows;
mod witness;

pub use base_set::BaseSet;
pub use groundwork::Groundwork;
pub use growth::Witness;
pub use installable::{find_installable, is_seen_installable};
pub use part::{Part, is_among};
pub use propagation::{Propagation, refute_by_forcing};
pub use rows::{Places, has_any};
pub use witness::is_seen_to_admit;
