//! The constraints of an index as clauses over the places in play, some of which are forced and others, the candidates, have a variable each.
//!
//! The modules in reading order:
//!
//! - `play` has the places in play, and makes a clause hold where a place is in, or out.
//! - `gathered` has the buffers that one call leaves to the next.
//! - `encoder` holds the places and the formula that it adds to. Its calls stand by topic: each adds clauses that hold in just the sets that meet
//!   one thing. Here are those for an essential name and a need.
//! - `conflicts` adds what an entry of Conflicts or Breaks says.
//! - `exclusion` tells that of some places one at most is in; by it `versions` adds that a name stands once.
//! - `rivals` adds what all entries of the places in play say: those that hit few packages each by itself, the others by lists.
//! - `groups` adds each constraint of a list in a group of its own.
#![tactic(auto)]

mod conflicts;
mod encoder;
mod exclusion;
mod gathered;
mod groups;
mod play;
mod rivals;
mod versions;

pub use encoder::Encoder;
pub use gathered::Gathered;
pub use groups::encode_each;
pub use play::Play;
