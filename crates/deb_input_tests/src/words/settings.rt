//! What a line asks for, in words.

use run_settings::{Config, Format, Show};
use std::alloc::{AllocError, Global};
use std::str::from_utf8;

/// The architecture, and all that is other than where nothing but it is said.
pub fn settings_in_words(alloc: Global, config: &Config) -> Result<String, AllocError> {
    let mut words = String::new(alloc);
    append_settings(&mut words, config)?;
    Ok(words)
}

fn append_settings(words: &mut String, config: &Config) -> Result<(), AllocError> {
    words.push_str(config.arch.as_str())?;
    append_choices(words, config)?;
    append_counts(words, config)?;
    append_names(words, config)?;
    append_files(words, config)
}

fn append_choices(words: &mut String, config: &Config) -> Result<(), AllocError> {
    for (is_made, word) in [
        (config.explain, ", explain"),
        (!config.essential, ", ignore-essential"),
        (config.show == Show::Failures, ", failures"),
        (config.show == Show::Successes, ", successes"),
        (config.causes, ", causes"),
        (config.all_reasons, ", all-reasons"),
        (config.why, ", why"),
        (config.strict, ", strict"),
        (config.quiet, ", quiet"),
        (config.format == Format::Json, ", json"),
    ] {
        if is_made {
            words.push_str(word)?;
        }
    }
    Ok(())
}

fn append_counts(words: &mut String, config: &Config) -> Result<(), AllocError> {
    if config.workers != 4 {
        write!(words, ", workers {}", config.workers)?;
    }
    if config.chunk != 64 {
        write!(words, ", chunk {}", config.chunk)?;
    }
    Ok(())
}

fn append_names(words: &mut String, config: &Config) -> Result<(), AllocError> {
    if let Some(names) = &config.only {
        words.push_str(", only")?;
        for name in names {
            write!(words, " {}", from_utf8(name).unwrap_or("?"))?;
        }
    }
    Ok(())
}

fn append_files(words: &mut String, config: &Config) -> Result<(), AllocError> {
    append_file(words, ", names in", &config.only_file)?;
    append_file(words, ", bg", &config.bg)?;
    append_file(words, ", since", &config.since)
}

fn append_file(words: &mut String, word: &str, file: &Option<String>) -> Result<(), AllocError> {
    match file {
        Some(name) => write!(words, "{word} {name}"),
        None => Ok(()),
    }
}
