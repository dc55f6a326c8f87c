//! Where bytes come from and go to.
//!
//! `device` says what contracts see of a source and of a sink; `std_device` has such devices over std's; `recording` is a source that keeps its beginning,
//! and `opener` opens files by their names. `write` writes whole texts.
#![tactic(auto)]

mod device;
mod opener;
mod recording;
mod std_device;
mod write;

pub use device::{DeviceFault, Sink, Source};
pub use opener::{Disk, OpenFault, Opener};
pub use recording::Recording;
pub use std_device::Std;
pub use write::write_all;
