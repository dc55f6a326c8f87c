//! Tests of the public calls of `sat_solve`; `first_failing` has those of `core_extract`.
//!
//! `scripts` reads clauses, lists and questions from lines of text, `worked` has worked formulas; `needed` has groups that are needed. `drawn` sees
//! that many small formulas have the first sets that `plain` finds, which tries all sets in their order. `growths` has a test for each call that can
//! want memory.
#![tactic(auto)]

#[cfg(test)]
mod drawn;
#[cfg(test)]
mod first_failing;
#[cfg(test)]
mod growths;
#[cfg(test)]
mod needed;
#[cfg(test)]
mod plain;
#[cfg(test)]
mod scripts;
#[cfg(test)]
mod worked;
