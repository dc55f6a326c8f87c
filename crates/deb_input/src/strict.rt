//! What a strict run takes for a fault.

ghost use Rattle.std.specs.Prelude.{◌≡◌, ◌<◌, ◌^◌, length};
ghost use Rattle.run_settings.specs.Settings.{settings_of};
ghost use Rattle.deb_input.specs.Inputs.{slip_in, slip_of};

use deb_index::Index;
use run_settings::Config;

/// Why nothing is asked of an index, or nothing that is in it.
#[derive(Clone, Copy, Debug, PartialEq, Eq)]
pub enum Slip {
    /// There is no stanza.
    NoStanza,
    /// All stanzas are of other architectures.
    OtherArchitectures,
    /// No package is asked.
    NothingAsked,
}

/// The first of what `Slip` lists that holds of a run over so many stanzas, of which so many are of other architectures, that asks so many packages.
#[tactic(auto, unfolding(crate::specs::Inputs::slip_in))]
pub fn slip_in(stanzas: u32, skipped: u32, asked: u32) -> Option<Slip>
    ensures { result ≡ slip_in stanzas skipped asked }
{
    if stanzas == 0 {
        return Some(Slip::NoStanza);
    }
    if skipped == stanzas {
        return Some(Slip::OtherArchitectures);
    }
    if asked == 0 {
        return Some(Slip::NothingAsked);
    }
    None
}

/// The fault of a strict run that asks these places of the index, where it has one: the first of what `Slip` lists.
#[tactic(auto, unfolding(crate::specs::Inputs::slip_of))]
pub fn slip_of(config: &Config, index: &Index, asked: &[u32]) -> Option<Slip>
    requires few { length asked.now < 2 ^ 32 }
    ensures { result ≡ slip_of (settings_of config.now) index.now asked.now }
{
    if !(config.strict || config.since.is_some()) {
        return None;
    }
    slip_in(index.stanzas(), index.skipped(), asked.len() as u32)
}
