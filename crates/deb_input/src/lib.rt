//! Reads the inputs of a run, says why it fails, and guesses what is wrong with an input.
//!
//! The modules, in reading order:
//!
//! - `fault`: why a run fails, and the line of that; `strict`: what a strict run takes for a fault.
//! - `held`: bytes that were read and are not yet taken; `input`: reading to the end; `pieces`: an index whose text is read piece by piece, by way of
//!   what is held of it.
//! - `names`: the names that stand in a file.
//! - A guess is a hint's text, of which nothing is promised: by an input's first bytes (`beginning`), by the stanza for whose fault it is refused (`stanza`,
//!   whose `lines` are taken apart), by its `architecture`, by either of these (`reading`), or by a name that is asked in vain (`asked_name`). `naming`:
//!   what inputs are called.
#![tactic(auto)]

mod architecture;
mod asked_name;
mod beginning;
mod fault;
mod held;
mod input;
mod lines;
mod names;
mod naming;
mod pieces;
mod reading;
mod stanza;
mod strict;

pub use architecture::elsewhere_text;
pub use asked_name::name_text;
pub use beginning::beginning_text;
pub use fault::{RunFault, fault_line, memory_line};
pub use input::read_all;
pub use names::read_names;
pub use naming::{Input, option_of, text_of};
pub use pieces::{TextRead, finish, read_text};
pub use reading::reading_text;
pub use stanza::stanza_text;
pub use strict::{Slip, slip_in, slip_of};
