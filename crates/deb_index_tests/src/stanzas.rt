//! The stanzas of a text, and their fields.
//!
//! `fields` tells what becomes of a text and looks at the fields of stanzas. `folded` has a text with a value over several lines and a comment between them;
//! `examples` has worked texts, those that are refused among them, `cuts` a text cut in two, `growths` a test for each call that can want memory.

mod cuts;
mod examples;
mod fields;
mod folded;
mod growths;
