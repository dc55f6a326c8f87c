//! What a command line asks a run for.
//!
//! `words` has the words of a process, and `line` makes of them what is asked: by the `options`, which `clap` reads, the `values` that these take, each of its
//! form as `checked` has it, or a `refusal`, which is a `fault`. `other_words` tells what programs like this one call them.
#![tactic(auto)]

mod checked;
mod fault;
mod line;
mod options;
mod other_words;
mod refusal;
mod values;
mod words;

pub use fault::{LineFault, line_status};
pub use line::{VERSION_LINE, read_line};
pub use words::words_of;
