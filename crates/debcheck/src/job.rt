//! What all parts of a run work with.
ghost use Rattle.std.specs.Prelude.{◌<◌, ◌≤◌};

use run_settings::Config;
use std::alloc::Global;

/// What a run works with, beside its devices.
#[derive(Drop)]
pub struct Job<'a, G, R> {
    pub rt: &'a R,
    pub alloc: Global,
    pub config: &'a Config,
    pub gate: &'a G,
    /// Whether the process ends behind the run, and all its memory goes back at once: an index is given back in some hundred thousand pieces.
    pub is_last: bool,
    ghost workers: { (0 < config.now.workers) × (config.now.workers ≤ 64) },
    ghost chunk: { 0 < config.now.chunk },
}
