//! The first set of numbers that fails.
//!
//! `counting` tells how many questions are asked; `growths` has a test for each call that can want memory.

mod counting;
mod growths;
