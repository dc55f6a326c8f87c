//! The report on an index: the bytes that tell what was found of the places that are asked.
//!
//! The modules, in reading order:
//!
//! - `layout`: the calls; `content`: what a report tells, with its causes by `deb_causes`; `options`: the words that a report is made under.
//! - `asked`: the places that are asked; `shown`: those that are shown, with what is told of them; `summary`: what a run counts.
//! - `broken`: the broken packages of an earlier index; `newly_broken`: those of another index that are newly broken; `amends`: those
//!   that are mended or gone; `marks`: marks on names.
//! - `document`: a report in its form, with its `numbers`; `cores`: those of a package; `causes`: the blocks of causes; `sought`: which names that differ
//!   in numbers alone are looked for.
//! - `form`: how members, lists and items are written in each form; `parts`: what items are told by; `json_text`: the strings of JSON.
//! - `walk`: the steps of a core as it is walked from its package, over a table of what the core says of each package (`own`); `hits`: the packages that
//!   entries hit; `answers`: what answers a need.
//! - `reasons`: what is told of packages and constraints, and where a walk goes on from these; `walk_lines` tells the steps of a core.
#![tactic(auto)]

mod amends;
mod answers;
mod asked;
mod broken;
mod causes;
mod content;
mod cores;
mod document;
mod form;
mod hits;
mod json_text;
mod layout;
mod marks;
mod newly_broken;
mod numbers;
mod options;
mod own;
mod parts;
mod reasons;
mod shown;
mod sought;
mod summary;
mod walk;
mod walk_constraints;
mod walk_lines;

pub use asked::{AskedFault, asked_places, earlier_places};
pub use broken::{BrokenPackage, broken_packages};
pub use layout::{report, report_told};
pub use newly_broken::Before;
pub use summary::Summary;
