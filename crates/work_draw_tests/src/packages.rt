//! Verdicts of small indexes, compared with answers that were found by hand or by brute force outside.
//!
//! `grounded` has an index with its groundwork. `expected` compares what is found with what is expected, by `compared`, with `marks` for what is
//! installable. `lent` makes an index with its groundwork and a workspace, and lends them to it. `verdicts` and `cores` have worked examples, `long` those
//! of long texts; `growths` has a test for each call that can want memory.

mod compared;
mod cores;
mod expected;
mod grounded;
mod growths;
mod lent;
mod long;
mod marks;
mod verdicts;
