//! What is told of an index that was read, or refused.

use crate::architecture::elsewhere_text;
use crate::fault::RunFault;
use crate::naming::Input;
use crate::stanza::stanza_text;
use deb_index::Index;
use run_settings::Config;
use std::alloc::Global;

/// Whether no package of these places is of the architecture that is asked for.
fn is_elsewhere(index: &Index, from: u32, to: u32) -> bool {
    for place in from..to.min(index.len()) {
        if index.package(place).architecture.as_slice() == index.arch() {
            return false;
        }
    }
    index.skipped() > 0
}

/// What is told of an input that was read as an index with a background behind it, or refused, by the piece of it that was read last or has the fault,
/// and by the background.
pub fn reading_text(
    alloc: Global,
    config: &Config,
    input: Input,
    outcome: &Result<Index, RunFault>,
    piece: &[u8],
    more: &[u8],
) -> Option<Vec<u8>> {
    let behind = Input::Background;
    let index = match outcome {
        Ok(index) => index,
        Err(RunFault::Index(fault)) => return stanza_text(alloc, config, input, fault, piece),
        Err(RunFault::Background(fault)) => {
            return stanza_text(alloc, config, behind, fault, more);
        }
        _ => return None,
    };
    if is_elsewhere(index, 0, index.foreground()) {
        let has_all = index.skipped() < index.stanzas();
        let own = elsewhere_text(alloc, config, input, has_all, piece);
        if own.is_some() {
            return own;
        }
    }
    if is_elsewhere(index, index.foreground(), index.len()) {
        return elsewhere_text(alloc, config, behind, false, more);
    }
    None
}
