//! The words of the command line that a report is made under.

ghost use Rattle.std.specs.Prelude.{◌≡◌, ◌++◌, IfOk, OnOk, codes, map};
ghost use Rattle.std.specs.List.{flat_map};
ghost use Rattle.run_settings.specs.Settings.{options_of, settings_of, show_words, word_if};

use run_settings::{Config, Show};
use std::alloc::{AllocError, Global};

/// Adds a word, where it is said.
fn push_if(
    options: &mut Vec<&'static str>,
    said: bool,
    word: &'static str,
) -> Result<(), AllocError>
    ensures { OnOk result (map (λ one. one.now) options.new.items ≡ map (λ one. one.now) options.old.items ++ word_if said word.now) }
{
    if said {
        options.push(word)?;
    }
    Ok(())
}

/// The word that says which packages have a block, and whether it is said.
fn show_word(show: Show) -> (bool, &'static str)
    ensures { word_if result.0 result.1.now ≡ show_words show }
{
    match show {
        Show::All => (false, ""),
        Show::Failures => (true, "failures"),
        Show::Successes => (true, "successes"),
    }
}

/// The words that are said.
fn said_of(alloc: Global, words: &[(bool, &'static str)]) -> Result<Vec<&'static str>, AllocError>
    ensures { IfOk result (λ said. map (λ one. one.now) said.items ≡ flat_map (λ one. word_if one.0 one.1.now) words.now) }
{
    let mut said = Vec::new(alloc);
    for (is_said, word) in words {
        push_if(&mut said, *is_said, word)?;
    }
    Ok(said)
}

/// The words that say of what packages a report tells, and what.
#[tactic(auto, unfolding(run_settings::specs::Settings::options_of))]
pub(crate) fn options_of(
    alloc: Global,
    config: &Config,
    since: bool,
) -> Result<Vec<&'static str>, AllocError>
    ensures { IfOk result (λ options. map (λ one. one.now) options.items ≡ options_of (settings_of config.now) since) }
{
    said_of(
        alloc,
        &[
            (config.explain, "explain"),
            show_word(config.show),
            (!config.essential, "ignore-essential"),
            (config.only.is_some(), "checkonly"),
            (config.bg.is_some(), "bg"),
            (since, "since"),
            (config.causes, "causes"),
            (config.all_reasons, "all-reasons"),
            (config.why, "why"),
        ],
    )
}
