//! What is asked of a run: `config` has the settings, and which of them say what a report tells.
#![tactic(auto)]

mod config;

pub use config::{CHUNK_LIMIT, Config, Format, Show};
