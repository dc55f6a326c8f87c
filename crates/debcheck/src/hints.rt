//! Hints: what is guessed of the inputs of a run is noted on the reader of its index, and told on a screen behind all else.

use crate::outcome::{fault_text, file_text, summary_text};
use deb_index::Index;
use deb_input::{Input, RunFault, beginning_text, name_text};
use deb_report::Summary;
use devices::{Opener, Source};
use run_settings::Config;
use std::alloc::Global;
use std::io::{IsTerminal, Write};

/// Notes what a name is that was asked in vain, where that ended a run.
pub(crate) fn note_unknown<S: Source>(
    alloc: Global,
    reader: &S,
    index: &Index,
    told: &Result<(Vec<u8>, Summary), RunFault>,
) {
    if let Err(RunFault::UnknownAsked { name }) = told {
        reader.note(name_text(alloc, index, name.as_slice()));
    }
}

/// Notes what was noted on an input, or in its place what its first bytes tell, where a run ended with a report or with a fault of it; and what was noted
/// on it where the background has a fault, which is read behind it.
pub(crate) fn note_input<S: Source, B: Source>(
    alloc: Global,
    reader: &S,
    outcome: &Result<Summary, RunFault>,
    input: Input,
    of: &B,
) {
    let is_of_it = match outcome {
        Ok(_) => true,
        Err(RunFault::Index(_)) => input == Input::Index,
        Err(RunFault::Background(_)) => input == Input::Background,
        Err(RunFault::Earlier(_)) => input == Input::Earlier,
        _ => false,
    };
    if is_of_it || matches!(outcome, Err(RunFault::Background(_))) {
        reader.note(of.take_note());
    }
    if is_of_it {
        reader.note(beginning_text(alloc, input, of.front()));
    }
}

/// What is told of a run of whose inputs nothing was noted.
fn text_of<O: Opener>(
    alloc: Global,
    config: &Config,
    files: &O,
    is_folder: bool,
    outcome: &Result<Summary, RunFault>,
) -> Option<Vec<u8>> {
    let (input, name) = match outcome {
        Ok(summary) => return Vec::from_slice(alloc, summary_text(summary)?).ok(),
        Err(RunFault::BackgroundRead) => (Input::Background, config.bg.as_ref()?),
        Err(RunFault::EarlierRead) => (Input::Earlier, config.since.as_ref()?),
        Err(RunFault::NamesRead) => (Input::Names, config.only_file.as_ref()?),
        Err(fault) => return Vec::from_slice(alloc, fault_text(fault, is_folder)?).ok(),
    };
    let name = name.as_str();
    file_text(alloc, input, name.as_bytes(), files.obstacle(name))
}

/// Tells on a screen what looks like a slip, where that is a terminal and quiet isn't asked for. Where there is no memory for the line, or the
/// screen doesn't take it, nothing is told.
pub(crate) fn tell_hint<O: Opener, S: Source, T: IsTerminal + Write + Copy>(
    alloc: Global,
    screen: T,
    config: &Config,
    files: &O,
    reader: &S,
    outcome: &Result<Summary, RunFault>,
) {
    if config.quiet || !screen.is_terminal() {
        return;
    }
    note_input(alloc, reader, outcome, Input::Index, reader);
    let noted = reader.take_note();
    let text = noted.or_else(|| text_of(alloc, config, files, reader.is_folder(), outcome));
    let line = text.map(|text| [b"hint: ", text.as_slice(), b"\n"].concat(alloc));
    if let Some(Ok(line)) = line {
        let mut screen = screen;
        let _ = screen.write(line.as_slice());
    }
}
