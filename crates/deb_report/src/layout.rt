//! The report in its form.

ghost use Rattle.std.specs.Prelude.{◌≡◌, ◌<◌, ◌^◌, All, IfOk, length, map};
ghost use Rattle.std.specs.Option.{ForSome};
ghost use Rattle.deb_health.specs.Verdicts.{SpeaksOf, told_view, verdict_view};
ghost use Rattle.run_settings.specs.Settings.{settings_of};
ghost use Rattle.deb_report.specs.Since.{counts_of, summary_of};
ghost use Rattle.deb_report.specs.Content.{before_view};
ghost use Rattle.deb_report.specs.Document.{written_report, written_told};

use crate::content::content_of;
use crate::form::Writer;
use crate::newly_broken::Before;
use crate::options::options_of;
use crate::sought::similar_to_walks;
use crate::summary::{Counts, Summary, summary_of};
use deb_health::{Told, Verdict};
use deb_index::Index;
use run_settings::Config;
use std::alloc::{AllocError, Global};

/// What a verdict tells.
fn told_of(alloc: Global, verdict: &Verdict) -> Result<Told, AllocError>
    ensures { IfOk result (λ told. told_view told ≡ verdict_view verdict.now) }
{
    match verdict {
        Verdict::Ok(places) => Ok(Told::Set(Vec::from_slice(alloc, places.as_slice())?)),
        Verdict::Broken(core) => {
            let core = Vec::from_slice(alloc, core.as_slice())?;
            Ok(Told::Broken(vec![in alloc; core]?))
        }
    }
}

/// What each verdict tells.
fn told_by(alloc: Global, verdicts: &[Verdict]) -> Result<Vec<Told>, AllocError>
    ensures { IfOk result (λ told. map told_view told.items ≡ map verdict_view verdicts.now) }
{
    let mut told = Vec::new(alloc);
    for verdict in verdicts {
        told.push(told_of(alloc, verdict)?)?;
    }
    Ok(told)
}

/// The text of the report on the asked places, and what is counted of them.
fn text_of(
    alloc: Global,
    index: &Index,
    asked: &[u32],
    told: &[Told],
    before: Option<&Before<'_>>,
    config: &Config,
) -> Result<(Vec<u8>, Counts), AllocError>
    requires same { length asked.now ≡ length told.now }
    requires places { All (λ place. place < length index.now.packages) asked.now }
    requires within { All (SpeaksOf index.now) (map told_view told.now) }
    requires before { ForSome before (λ before. before.now.index.now ≡ index.now) }
    ensures text { IfOk result (λ r.
        r.0.items ≡ written_told (settings_of config.now) index.now asked.now (map told_view told.now) (before_view before.entry)) }
    ensures counts { IfOk result (λ r. r.1 ≡ counts_of index.now asked.now (map told_view told.now) (before_view before.entry)) }
{
    let content = content_of(alloc, index, asked, told, before, config)?;
    let options = options_of(alloc, config, before.is_some())?;
    let similar = similar_to_walks(alloc, index, config, content.blocks.as_slice())?;
    let writer = Writer {
        alloc,
        index,
        config,
        similar: &similar,
    };
    let text = writer.text(options.as_slice(), &content)?;
    Ok((text, content.counts))
}

/// The report on the asked places: two lines at the head, a block for each place that is shown, in the order of the list, five lines of numbers,
/// or six with a background, and where causes are asked for, the block of them, whatever is shown.
///
/// There are as many verdicts as places, of any number, and both speak of what the index has. A block tells name, version, architecture and
/// status, as dose-debcheck(1) reports them; with `explain` the set that was found, or a line for each constraint that stands against each
/// set, with the relationship as Debian Policy 7.1 writes it. Under `Format::Json` the same is one JSON document (RFC 8259). `AllocError`
/// where there is no memory for it.
///
/// The first core of each package is all that is known here: with `all_reasons` no further one is told, and with `causes` the causes are those of
/// first cores alone, so that a cause frees each package whose first core has it. `report_told` is lent the others.
pub fn report(
    alloc: Global,
    index: &Index,
    asked: &[u32],
    verdicts: &[Verdict],
    config: &Config,
) -> Result<Vec<u8>, AllocError>
    requires same { length asked.now ≡ length verdicts.now }
    requires places { All (λ place. place < length index.now.packages) asked.now }
    requires within { All (SpeaksOf index.now) (map verdict_view verdicts.now) }
    ensures { IfOk result (λ text. text.items ≡ written_report (settings_of config.now) index.now asked.now (map verdict_view verdicts.now)) }
{
    let told = told_by(alloc, verdicts)?;
    let (text, _) = text_of(alloc, index, asked, told.as_slice(), None, config)?;
    Ok(text)
}

/// The report on the asked places, as `report` gives it, of as much as is told of each, with its numbers: with `all_reasons` a block tells all cores
/// that are told, else how many stand behind the first, and causes are those of all of them.
///
/// Where packages that were broken in an earlier index are given, a block and a cause have the newly broken packages alone, whatever is to be shown:
/// those of whose name no package was broken before. Behind the numbers, the last of which is theirs, stand the packages that were broken and are
/// mended, and those that are gone, in the order of the earlier index, each with its name and its version.
pub fn report_told(
    alloc: Global,
    index: &Index,
    asked: &[u32],
    told: &[Told],
    before: Option<&Before<'_>>,
    config: &Config,
) -> Result<(Vec<u8>, Summary), AllocError>
    requires few { length asked.now < 2 ^ 32 }
    requires same { length asked.now ≡ length told.now }
    requires places { All (λ place. place < length index.now.packages) asked.now }
    requires within { All (SpeaksOf index.now) (map told_view told.now) }
    requires before { ForSome before (λ before. before.now.index.now ≡ index.now) }
    ensures text { IfOk result (λ r.
        r.0.items ≡ written_told (settings_of config.now) index.now asked.now (map told_view told.now) (before_view before.entry)) }
    ensures summary { IfOk result (λ r. r.1 ≡ summary_of index.now asked.now (map told_view told.now) (before_view before.entry)) }
{
    let (text, counts) = text_of(alloc, index, asked, told, before, config)?;
    Ok((text, summary_of(index, counts)))
}
