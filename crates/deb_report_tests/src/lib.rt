//! Tests of the public calls of `deb_report`.
//!
//! `reporting` has the index of a text, the verdicts on what is asked of it, and the calls that answer from them; `asking` compares what is asked of
//! the index of a text with what is expected. `parts` has the asked places and the report, each by itself, `causes` the block of causes, `similar` names
//! that are near, `later` the cores behind the first, `why` cores as they are walked, `since` the report since an earlier index, `growths` a test for each
//! call that can want memory.
#![tactic(auto)]

#[cfg(test)]
mod asking;
#[cfg(test)]
mod causes;
#[cfg(test)]
mod growths;
#[cfg(test)]
mod later;
#[cfg(test)]
mod parts;
#[cfg(test)]
mod reporting;
#[cfg(test)]
mod similar;
#[cfg(test)]
mod since;
#[cfg(test)]
mod why;
