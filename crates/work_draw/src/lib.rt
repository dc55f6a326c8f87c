//! What is found of many packages by workers that draw chunks of them from one board: each chunk once, none left out, in every order of events.
//!
//! `specs/Drawing` has the rule that ties the drawers to the claim word, `specs/Board` what callers see of both. The modules, in reading order:
//!
//! - `hand`: what a drawer knows; `board`: the board, which deals the numbers below its total, and its drawers, which split, draw, join and close.
//! - `gate`: who is told of each number that was drawn, before and after what is done with it.
//! - `chunks`: what finds something of places, and so of chunks of the asked ones.
//! - `pieces`: what is made of the numbers that are drawn, and the order in which it is gathered.
//! - `workers`: a worker, who draws until no number is left, and a crew of them.
//! - `check`: all of it, from the asked places to what is found of them, by whatever finds it, and to their verdicts.
#![tactic(auto)]

mod board;
mod check;
mod chunks;
mod gate;
mod hand;
mod pieces;
mod workers;

pub use board::{Board, Drawer, WORKER_LIMIT, new_board};
pub use check::{check_all, check_each};
pub use chunks::{Chunks, Finder};
pub use gate::{Gate, OpenGate};
pub use pieces::{Drawn, Piece, gather};
pub use workers::{crew, draw_pieces};
