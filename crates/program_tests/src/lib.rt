//! Tests of whole programs, from their words to their exit status.
//!
//! `runs` runs one, on devices over memory. `programs` runs some, those that tell all causes, of `more_reasons`, and those since an earlier index, of
//! `since_programs`; `named_programs` runs those whose names stand in a file, `unread_files` those whose files can't be read, `pieces` those whose texts come
//! in small pieces. `failing_devices` has each device fail in turn, `screen` what a terminal shows.
#![tactic(auto)]

#[cfg(test)]
mod failing_devices;
#[cfg(test)]
mod more_reasons;
#[cfg(test)]
mod named_programs;
#[cfg(test)]
mod pieces;
#[cfg(test)]
mod programs;
#[cfg(test)]
mod runs;
#[cfg(test)]
mod screen;
#[cfg(test)]
mod since_programs;
#[cfg(test)]
mod unread_files;
