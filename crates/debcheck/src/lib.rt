//! Checks which packages of a Debian package index can be installed, and reports it: a run, and a program around it.
//!
//! What is asked of a run is in `run_settings`, and how words ask for it in `command_line`; how its texts are read, and why it fails, is in
//! `deb_input`; the report that it writes is `deb_report`'s; what it reads from and writes to are `devices`.
//! The modules, in reading order:
//!
//! - `phases`: a run, from bytes to bytes, and the `job` that its parts share; `since`: one that reads an earlier index first; `asked`: the places that
//!   are asked in it; `verdicts`: what is told of them, and the report of that.
//! - `hints`: what is guessed of inputs and of a run is noted, and told on a screen, in a line that begins with `hint: `. Of a guess nothing is promised, and
//!   what a run answers and writes is the same without it. A guess is made by what `deb_input` read, or by the `outcome` of a run.
//! - `exit_status`: the status of a run; `output`: the lines of faults, written.
//! - `laws`: what holds of runs and of reports.
//! - `program`: a program, from its words to its exit status, on the files that are opened by their names, one of which may have the names that are
//!   asked, and with a hint on a screen.
//! - `progress`: the line that tells how far a run has come, and that is gone before the program writes anything else.
#![tactic(auto)]

mod asked;
mod exit_status;
mod hints;
mod job;
pub mod laws;
mod outcome;
mod output;
mod phases;
mod program;
mod progress;
mod since;
mod verdicts;

pub use asked::asked_places;
pub use command_line::{LineFault, VERSION_LINE, line_status, read_line, words_of};
pub use deb_input::{RunFault, Slip, fault_line, read_all};
pub use deb_report::{Summary, report};
pub use devices::{DeviceFault, Disk, OpenFault, Opener, Recording, Sink, Source, Std};
pub use exit_status::status;
pub use job::Job;
pub use outcome::{fault_text, file_text, summary_text};
pub use output::{write_fault, write_line_fault};
pub use phases::run;
pub use program::{Ended, run_process, run_program};
pub use progress::Progress;
pub use run_settings::{CHUNK_LIMIT, Config, Format, Show};
pub use since::run_since;
