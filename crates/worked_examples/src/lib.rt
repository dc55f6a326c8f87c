//! Worked examples over all crates: words and a text go in, and the bytes of the report are compared.
//!
//! `example` says what an example is and runs it, `reports` goes over all that are written out: those of `rows`, `refusals`, `walks` and `json_reports`, and
//! those of `crews`, which any crew answers; `cut_texts` and `large` have inputs of their own.
#![tactic(auto)]

#[cfg(test)]
mod crews;
#[cfg(test)]
mod cut_texts;
#[cfg(test)]
mod example;
#[cfg(test)]
mod json_reports;
#[cfg(test)]
mod large;
#[cfg(test)]
mod refusals;
#[cfg(test)]
mod reports;
#[cfg(test)]
mod rows;
#[cfg(test)]
mod walks;
