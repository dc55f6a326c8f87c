//! The places that are asked.

ghost use Rattle.std.specs.Prelude.{◌≡◌, ◌==◌, ◌||◌, ◌<◌, ◌≤◌, ◌^◌, ℕ, All, IfOk, IfErr, MatchOption, false, length, find, map, slice_index_or};
ghost use Rattle.std.specs.List.{list_any};
ghost use Rattle.deb_index.specs.Constraints.{below};
ghost use Rattle.deb_index.specs.Packages.{package_at, places_where};
ghost use Rattle.deb_report.specs.declared.asked.AskedFault.TheVariants.{Memory};
ghost use Rattle.deb_report.specs.Outcome.{FailsToAsk, asked_places, foreground_packages, is_listed, is_unknown, listed_places, unknown_in};
ghost use Rattle.run_settings.specs.Settings.{settings_of};

use deb_index::Index;
use run_settings::Config;
use std::alloc::{AllocError, Global};
use thiserror::Error;

/// Why no places are asked.
#[derive(Debug, Drop, Error)]
pub enum AskedFault {
    /// No package of the foreground has this name: the first such name of those that were listed.
    #[error("unknown package")]
    Unknown { name: Vec<u8> },
    /// Some growth was refused.
    #[error("out of memory")]
    Memory,
}

impl From<AllocError> for AskedFault {
    ghost from_gives = { λ _ e. e ≡ Memory };

    fn from(_e: AllocError) -> AskedFault {
        AskedFault::Memory
    }
}

/// All places below a count, rising.
fn places_below(alloc: Global, count: u32) -> Result<Vec<u32>, AllocError>
    ensures value { IfOk result (λ places. places.items ≡ below count) }
    ensures few { IfOk result (λ places. length places.items ≤ count) }
    ensures within { IfOk result (λ places. All (λ place. place < count) places.items) }
{
    let mut places = Vec::new(alloc);
    for place in 0..count {
        places.push(place)?;
    }
    Ok(places)
}

/// The first of the names that no package of the foreground has.
fn first_unknown<'n>(index: &Index, names: &'n [Vec<u8>]) -> Option<&'n Vec<u8>>
    ensures { let unknown = find (is_unknown index.now) (map (λ name. name.items) names.now) in
        MatchOption result (unknown ≡ None) (λ name. unknown ≡ Some name.now.items) }
{
    for name in names {
        if is_unknown(index, name.as_slice()) {
            return Some(name);
        }
    }
    None
}

/// Whether no package of the foreground has the name: the first of its places tells.
pub(crate) fn is_unknown(index: &Index, name: &[u8]) -> bool
    ensures { result ≡ is_unknown index.now name.now }
{
    match index.places_of(name).first() {
        Some(place) => *place >= index.foreground(),
        None => true,
    }
}

/// Marks those of these places that there is a mark for.
fn mark_places(marks: &mut [bool], places: &[u32])
    ensures { (k : ℕ) → k < length marks.old → slice_index_or marks.new k false ≡
        (slice_index_or marks.old k false || list_any (λ place. place == k) places.now) }
{
    for place in places {
        if (*place as usize) < marks.len() {
            marks[*place as usize] = true;
        }
    }
}

/// Marks the places of the names, as far as there are marks.
fn mark_names(index: &Index, names: &[Vec<u8>], marks: &mut [bool])
    requires { length marks.old ≤ length index.now.packages }
    ensures { (k : ℕ) → k < length marks.old → slice_index_or marks.new k false ≡
        (slice_index_or marks.old k false || is_listed (map (λ name. name.items) names.now) (package_at index.now k)) }
{
    for name in names {
        mark_places(marks, index.places_of(name.as_slice()));
    }
}

/// The places that are marked, rising.
fn marked_places(alloc: Global, marks: &[bool]) -> Result<Vec<u32>, AllocError>
    requires { length marks.now < 2 ^ 32 }
    ensures { IfOk result (λ places. places.items ≡ places_where (λ mark. mark) marks.now) }
{
    let mut places = Vec::new(alloc);
    for (place, mark) in marks.iter().enumerate() {
        if *mark {
            places.push(place as u32)?;
        }
    }
    Ok(places)
}

/// The places of the names in the foreground, rising, each once.
fn listed_places(alloc: Global, index: &Index, names: &[Vec<u8>]) -> Result<Vec<u32>, AllocError>
    ensures value { IfOk result (λ places. places.items ≡ places_where (is_listed (map (λ name. name.items) names.now)) (foreground_packages index.now)) }
    ensures few { IfOk result (λ places. length places.items ≤ index.now.foreground) }
    ensures within { IfOk result (λ places. All (λ place. place < length index.now.packages) places.items) }
{
    let mut marks = vec![in alloc; false; index.foreground() as usize]?;
    mark_names(index, names, marks.as_mut_slice());
    Ok(marked_places(alloc, marks.as_slice())?)
}

/// The places that are asked of an earlier index, rising, each once: all places of the foreground, or with `only` those of its named packages.
/// A name that no package has is no fault there.
pub fn earlier_places(alloc: Global, index: &Index, config: &Config) -> Result<Vec<u32>, AllocError>
    ensures places { IfOk result (λ places. places.items ≡ listed_places index.now (settings_of config.now).only) }
    ensures few { IfOk result (λ places. length places.items < 2 ^ 32) }
    ensures within { IfOk result (λ places. All (λ place. place < length index.now.packages) places.items) }
{
    let foreground = index.foreground();
    match &config.only {
        None => places_below(alloc, foreground),
        Some(names) => listed_places(alloc, index, names.as_slice()),
    }
}

/// The first of the listed names that no package of the foreground has.
fn unknown_of<'c>(index: &Index, config: &'c Config) -> Option<&'c Vec<u8>>
    ensures { let unknown = unknown_in index.now (settings_of config.now).only in
        MatchOption result (unknown ≡ None) (λ name. unknown ≡ Some name.now.items) }
{
    match &config.only {
        None => None,
        Some(names) => first_unknown(index, names.as_slice()),
    }
}

/// The places that are asked, rising, each once: all places of the foreground, or with `only` those of its named packages. What the background has
/// is never asked.
///
/// `Unknown` tells the first listed name that no package of the foreground has.
pub fn asked_places(alloc: Global, index: &Index, config: &Config) -> Result<Vec<u32>, AskedFault>
    ensures asked { IfOk result (λ asked. asked_places index.now (settings_of config.now).only ≡ Ok asked.items) }
    ensures few { IfOk result (λ asked. length asked.items < 2 ^ 32) }
    ensures within { IfOk result (λ asked. All (λ place. place < length index.now.packages) asked.items) }
    ensures refused { IfErr result (FailsToAsk index.now (settings_of config.now).only) }
{
    match unknown_of(index, config) {
        None => Ok(earlier_places(alloc, index, config)?),
        Some(name) => Err(AskedFault::Unknown {
            name: Vec::from_slice(alloc, name.as_slice())?,
        }),
    }
}
