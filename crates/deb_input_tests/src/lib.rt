//! Tests of the public calls of `command_line`, in `words`, and of `deb_input`, over the devices of `test_devices`.
//!
//! `counted` has a reader of std's kind that counts. `whole_texts` and `over_std` read whole texts, `pieces` reads one piece by piece, `recordings` has
//! sources that keep their beginning. `fault_lines` has the lines of faults, `slips` what a strict run takes for one, `growths` a test for each call that
//! can want memory. The names of a file are read by whole programs, in `program_tests`.
#![tactic(auto)]

#[cfg(test)]
mod counted;
#[cfg(test)]
mod fault_lines;
#[cfg(test)]
mod growths;
#[cfg(test)]
mod over_std;
#[cfg(test)]
mod pieces;
#[cfg(test)]
mod recordings;
#[cfg(test)]
mod slips;
#[cfg(test)]
mod whole_texts;
#[cfg(test)]
mod words;
