//! The places that are asked in a run.

ghost use Rattle.std.specs.Prelude.{◌≡◌, ◌<◌, ◌^◌, All, IfOk, IfErr, None, Ok, length};
ghost use Rattle.deb_report.specs.Outcome.{asked_places};
ghost use Rattle.run_settings.specs.Settings.{settings_of};
ghost use Rattle.debcheck.specs.Run.{FailsToReport};
ghost use Rattle.deb_input.specs.Inputs.{slip_of};

use deb_index::Index;
use deb_input::{RunFault, slip_of};
use deb_report::AskedFault;
use run_settings::Config;
use std::alloc::Global;

/// The places that are asked, rising, each once: all places of the foreground, or with `only` those of its named packages. What the background has
/// is never asked.
///
/// `UnknownAsked` tells the first listed name that no package of the foreground has, and `Slipped`, where all are known and the run is strict, why
/// nothing is asked.
pub fn asked_places(alloc: Global, index: &Index, config: &Config) -> Result<Vec<u32>, RunFault>
    ensures asked { IfOk result (λ asked. asked_places index.now (settings_of config.now).only ≡ Ok asked.items) }
    ensures no_slip { IfOk result (λ asked. slip_of (settings_of config.now) index.now asked.items ≡ None) }
    ensures few { IfOk result (λ asked. length asked.items < 2 ^ 32) }
    ensures within { IfOk result (λ asked. All (λ place. place < length index.now.packages) asked.items) }
    ensures refused { IfErr result (FailsToReport (settings_of config.now) index.now) }
{
    match deb_report::asked_places(alloc, index, config) {
        Ok(asked) => match slip_of(config, index, asked.as_slice()) {
            Some(slip) => Err(RunFault::Slipped(slip)),
            None => Ok(asked),
        },
        Err(AskedFault::Unknown { name }) => Err(RunFault::UnknownAsked { name }),
        Err(AskedFault::Memory) => Err(RunFault::Memory),
    }
}
