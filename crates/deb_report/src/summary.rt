//! What a run counts.

ghost use Rattle.std.specs.Prelude.{◌≡◌, ◌-◌, ◌^◌, ◌<◌, IfOk, IfSome, length, map};
ghost use Rattle.deb_report.specs.Outcome.{number_view, numbers_of, summary_with};

use deb_index::Index;
use std::alloc::{AllocError, Global};

/// The numbers of a report's last lines.
#[derive(Clone, Copy, Debug, PartialEq, Eq)]
pub struct Summary {
    /// All stanzas of the index and of the background, at most `deb_index::STANZA_LIMIT`.
    pub stanzas: u32,
    /// Those of other architectures.
    pub skipped: u32,
    /// Those of a package that an earlier stanza is: of the same name and version text.
    pub duplicates: u32,
    /// The packages of the background; 0 without one.
    pub background: u32,
    /// The packages that were asked.
    pub asked: u32,
    /// Those of the asked that cannot be installed, shown or not.
    pub broken: u32,
    /// Those of the broken of whose name no package was broken in an earlier index; none where no such index is read.
    pub newly_broken: Option<u32>,
}

/// How many packages are the background's.
fn background_count(index: &Index) -> u32
    ensures { result ≡ length index.now.packages - index.now.foreground }
{
    index.len() - index.foreground()
}

/// How many packages are asked, how many of these are broken, and how many newly broken, where that is asked.
#[derive(Clone, Copy)]
pub struct Counts {
    pub asked: usize,
    pub broken: usize,
    pub newly_broken: Option<usize>,
}

/// The summary of an index and of what is counted of it.
pub fn summary_of(index: &Index, counts: Counts) -> Summary
    requires asked { counts.asked < 2 ^ 32 }
    requires broken { counts.broken < 2 ^ 32 }
    requires news { IfSome counts.newly_broken (λ count. count < 2 ^ 32) }
    ensures { result ≡ summary_with index.now counts }
{
    let newly_broken = match counts.newly_broken {
        Some(count) => Some(count as u32),
        None => None,
    };
    Summary {
        stanzas: index.stanzas(),
        skipped: index.skipped(),
        duplicates: index.duplicates(),
        background: background_count(index),
        asked: counts.asked as u32,
        broken: counts.broken as u32,
        newly_broken,
    }
}

/// The numbers of a report, each with its title: with a background its packages, and how many are newly broken, where that is asked.
/// `AllocError` where there is no memory for it.
#[tactic(auto, unfolding(crate::specs::Outcome::numbers_of))]
pub fn numbers_of(
    alloc: Global,
    index: &Index,
    counts: Counts,
    background: bool,
) -> Result<Vec<(&'static str, usize)>, AllocError>
    ensures { IfOk result (λ numbers. map number_view numbers.items ≡ numbers_of background (summary_with index.now counts)) }
{
    let mut numbers = Vec::new(alloc);
    numbers.extend_from_slice(&[
        ("stanzas", index.stanzas() as usize),
        ("skipped", index.skipped() as usize),
        ("duplicates", index.duplicates() as usize),
    ])?;
    if background {
        numbers.push(("background", background_count(index) as usize))?;
    }
    numbers.extend_from_slice(&[("asked", counts.asked), ("broken", counts.broken)])?;
    if let Some(number) = counts.newly_broken {
        numbers.push(("newly-broken", number))?;
    }
    Ok(numbers)
}
