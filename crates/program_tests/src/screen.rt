//! What a screen shows.
//!
//! `line` has the line that tells how far a run has come, by itself; `progress` looks at it during whole programs, on devices over memory and a screen;
//! in `growths` one wants memory.

mod growths;
mod line;
mod progress;
