//! Command lines: what their words ask for, and what is said of those that are refused.
//!
//! `settings` tells in words what a line asks for, `faults` what there is to say where it is no run, and `asking` reads a line and compares; `options`,
//! `earlier` and `values` have lines that are taken and lines that are refused, `others` has words of other programs, `texts` help and the version,
//! `environments` the words of a process, `growths` a test for each call that can want memory.
//!
//! A line is a text with a `|` before each of its words, and so is a list of what a refusal has to say. A table has a row for each line: its text,
//! ` => `, and what is expected of it: settings, the parts of a refusal, `no hint` in one, or `version`.

mod asking;
mod earlier;
mod environments;
mod faults;
mod growths;
mod options;
mod others;
mod settings;
mod texts;
mod values;
