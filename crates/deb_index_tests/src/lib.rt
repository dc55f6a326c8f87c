//! Tests of the public calls of `deb_control`, `deb_relation` and `deb_index`: from the bytes of a text to its index.
//!
//! `stanzas` has the stanzas of a text and their fields, `relationships` versions and relationship fields. All else is of indexes:
//! `reading` makes an index of a text, or of a text and a background; `showing` prints what is to be seen of one, which most tests compare with one text, and
//! `meeting` what meets an atom; `texts` has texts that several tests read. `examples` has worked examples, `satisfiers`, `needs` and `rows` have what meets an
//! atom, `positions` the places of constraints in their list, `backgrounds` indexes of two texts, `faults` and `limits` what is refused, `side_by_side` texts
//! that several workers read, `pieces` texts that come in pieces, `growths` a test for each call that can want memory, `written` what
//! `test_texts` makes.
#![tactic(auto)]

#[cfg(test)]
mod backgrounds;
#[cfg(test)]
mod examples;
#[cfg(test)]
mod faults;
#[cfg(test)]
mod growths;
#[cfg(test)]
mod limits;
#[cfg(test)]
mod meeting;
#[cfg(test)]
mod needs;
#[cfg(test)]
mod pieces;
#[cfg(test)]
mod positions;
#[cfg(test)]
mod reading;
#[cfg(test)]
mod relationships;
#[cfg(test)]
mod rows;
#[cfg(test)]
mod satisfiers;
#[cfg(test)]
mod showing;
#[cfg(test)]
mod side_by_side;
#[cfg(test)]
mod stanzas;
#[cfg(test)]
mod texts;
#[cfg(test)]
mod written;
