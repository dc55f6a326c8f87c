//! What the tests of `deb_input`, of `debcheck` and of whole programs run on: devices over memory that tell what became of them, and fail where told to.
//!
//! `memory` has a reader and a writer, `cabinets` files, `screens` a screen and a clock, `words` makes words of a line, `texts` has indexes with their reports.
#![tactic(auto)]

mod cabinets;
mod memory;
mod screens;
mod texts;
mod words;

pub use cabinets::Cabinet;
pub use memory::{Feed, Held, sink_of, sink_with_room, source_of};
pub use screens::{Beside, Screen, Ticks, clock_of};
pub use texts::{BACKED_REPORT, BACKGROUND, CHAIN, CHAIN_REPORT, INDEX};
pub use words::words_in;
