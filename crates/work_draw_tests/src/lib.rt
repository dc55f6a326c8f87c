//! Tests of the public calls of `work_draw`; `packages` has those of `deb_verdict`.
//!
//! `examples` has an index and its places, `pieces` looks at what is made of the numbers, `tally` is a gate that counts the chunks and may hold
//! workers back, `found` sees whether what is told is what is wanted, and `calls` asks a call of an index. `boards` draws from boards, `gates` holds
//! workers back at a gate, `cores` has several workers find all cores of packages, and `growths` has a test for each call that can want memory.
#![tactic(auto)]

#[cfg(test)]
mod boards;
#[cfg(test)]
mod calls;
#[cfg(test)]
mod cores;
#[cfg(test)]
mod examples;
#[cfg(test)]
mod found;
#[cfg(test)]
mod gates;
#[cfg(test)]
mod growths;
#[cfg(test)]
mod packages;
#[cfg(test)]
mod pieces;
#[cfg(test)]
mod tally;
