//! Versions, and relationship fields.
//!
//! `printing` reads relationship fields and prints them. `versions` has versions and bounds, `relations` names, relationship fields and qualifiers, `texts`
//! texts of any length. `growths` has a test for each call that can want memory, over all texts that `versions` and `relations` have for it.

mod growths;
mod printing;
mod relations;
mod texts;
mod versions;
