//! Tests of the public calls of `debcheck`; those of whole programs stand in `program_tests`, and what both run on in `test_devices`.
//!
//! `counted` has a writer of std's kind that counts, `cases` what a run is set to and comes to. `written_lines` writes the lines of faults, `statuses` has
//! the statuses of runs, `since_runs` runs since an earlier index, `meetings` those in which two workers have to meet, `growths` a test for each call that
//! can want memory. `hints` has what is guessed of inputs and runs.
#![tactic(auto)]

#[cfg(test)]
mod cases;
#[cfg(test)]
mod counted;
#[cfg(test)]
mod growths;
#[cfg(test)]
mod hints;
#[cfg(test)]
mod meetings;
#[cfg(test)]
mod since_runs;
#[cfg(test)]
mod statuses;
#[cfg(test)]
mod written_lines;
