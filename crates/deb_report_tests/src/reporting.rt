//! The index of a text, what is told of what is asked of it, and the calls that answer from that.

ghost use Rattle.std.specs.Prelude.{◌≡◌, ◌^◌, ◌<◌, All, IfOk, length, map};
ghost use Rattle.deb_health.specs.Verdicts.{SpeaksOf, told_view, verdict_view};

use deb_index::Index;
use deb_report::{Before, BrokenPackage, broken_packages, earlier_places, report_told};
use deb_verdict::{Cores, Groundwork, Told, Verdict, Wanted, Workspace, told_in, verdict};
use run_settings::Config;
use std::alloc::{AllocError, Global};
use std::test::Fail;

/// The index of texts, which may be written shortly.
pub fn index_of(alloc: Global, text: &str, background: &str) -> Result<Index, Fail> {
    let text = test_texts::index_of(alloc, text)?;
    let background = test_texts::index_of(alloc, background)?;
    if text.len() > 2_000 || background.len() > 2_000 {
        return Err("a longer text".into());
    }
    let bytes = background.as_bytes();
    Ok(Index::read_both(alloc, text.as_bytes(), bytes, "amd64", true)?)
}

/// The names as a list.
///
/// # Errors
///
/// Want of memory.
pub fn named(alloc: Global, names: &[&[u8]]) -> Result<Vec<Vec<u8>>, AllocError> {
    let mut list = Vec::new(alloc);
    for name in names {
        list.push(Vec::from_slice(alloc, name)?)?;
    }
    Ok(list)
}

/// The verdict of each place.
///
/// # Errors
///
/// Want of memory.
pub fn verdicts_of(alloc: Global, index: &Index, places: &[u32]) -> Result<Vec<Verdict>, AllocError>
    requires { All (λ place. place < length index.now.packages) places.now }
    ensures same { IfOk result (λ verdicts. length places.now ≡ length verdicts.items) }
    ensures within { IfOk result (λ verdicts. All (SpeaksOf index.now) (map verdict_view verdicts.items)) }
{
    let mut verdicts = Vec::new(alloc);
    for place in places {
        verdicts.push(verdict(alloc, index, *place)?)?;
    }
    Ok(verdicts)
}

/// What is told of the package at a place: all its cores, where it is below a number, and else its verdict.
fn wanted_at(place: u32, count: u32) -> Wanted {
    if place < count {
        Wanted {
            sets: true,
            cores: Cores::All,
        }
    } else {
        Wanted::verdict()
    }
}

fn tell_each(
    alloc: Global,
    workspace: &mut Workspace,
    groundwork: &Groundwork<'_>,
    places: &[u32],
    count: u32,
) -> Result<Vec<Told>, AllocError>
    requires { All (λ place. place < length groundwork.now.index.now.packages) places.now }
    ensures same { IfOk result (λ told. length places.now ≡ length told.items) }
    ensures within { IfOk result (λ told. All (SpeaksOf groundwork.now.index.now) (map told_view told.items)) }
{
    let mut told = Vec::new(alloc);
    for place in places {
        let wanted = wanted_at(*place, count);
        told.push(told_in(alloc, workspace, groundwork, *place, wanted)?)?;
    }
    Ok(told)
}

/// The same, in buffers of its own.
fn tell_on(
    alloc: Global,
    groundwork: &Groundwork<'_>,
    places: &[u32],
    count: u32,
) -> Result<Vec<Told>, AllocError>
    requires { All (λ place. place < length groundwork.now.index.now.packages) places.now }
    ensures same { IfOk result (λ told. length places.now ≡ length told.items) }
    ensures within { IfOk result (λ told. All (SpeaksOf groundwork.now.index.now) (map told_view told.items)) }
{
    let mut workspace = Workspace::new(alloc)?;
    let told = tell_each(alloc, &mut workspace, groundwork, places, count);
    drop(workspace);
    told
}

/// What is told of each place: all cores of those below a number.
///
/// # Errors
///
/// Want of memory.
pub fn told_of(
    alloc: Global,
    index: &Index,
    places: &[u32],
    count: u32,
) -> Result<Vec<Told>, AllocError>
    requires { All (λ place. place < length index.now.packages) places.now }
    ensures same { IfOk result (λ told. length places.now ≡ length told.items) }
    ensures within { IfOk result (λ told. All (SpeaksOf index.now) (map told_view told.items)) }
{
    let groundwork = Groundwork::new(alloc, index)?;
    let told = tell_on(alloc, &groundwork, places, count);
    drop(groundwork);
    told
}

/// The broken packages of an index.
fn broken_before(
    alloc: Global,
    index: &Index,
    config: &Config,
) -> Result<Vec<BrokenPackage>, AllocError> {
    let places = earlier_places(alloc, index, config)?;
    let places = places.as_slice();
    let told = told_of(alloc, index, places, 0)?;
    broken_packages(alloc, index, places, told.as_slice())
}

/// The broken packages of the index of a text.
fn broken_in(alloc: Global, text: &str, config: &Config) -> Result<Vec<BrokenPackage>, Fail> {
    let index = index_of(alloc, text, "")?;
    let before = broken_before(alloc, &index, config);
    drop(index);
    Ok(before?)
}

/// The places of what is newly broken since the index of an earlier text.
///
/// # Errors
///
/// A text that is no index, or want of memory.
pub fn news_since(
    alloc: Global,
    index: &Index,
    places: &[u32],
    told: &[Told],
    earlier: &str,
    config: &Config,
) -> Result<Vec<u32>, Fail>
    requires same { length places.now ≡ length told.now }
    requires within { All (λ place. place < length index.now.packages) places.now }
{
    let packages = broken_in(alloc, earlier, config)?;
    let before = Before::new(alloc, index, &packages)?;
    let mut news = Vec::new(alloc);
    for at in 0..places.len() {
        if matches!(told[at], Told::Broken(_)) && before.is_new(places[at]) {
            news.push(places[at])?;
        }
    }
    Ok(news)
}

/// The report on what became of the places since the index of an earlier text.
///
/// # Errors
///
/// A text that is no index, or want of memory.
pub fn report_since_earlier(
    alloc: Global,
    index: &Index,
    places: &[u32],
    told: &[Told],
    earlier: &str,
    config: &Config,
) -> Result<Vec<u8>, Fail>
    requires few { length places.now < 2 ^ 32 }
    requires same { length places.now ≡ length told.now }
    requires within { All (λ place. place < length index.now.packages) places.now }
    requires speaks { All (SpeaksOf index.now) (map told_view told.now) }
{
    let packages = broken_in(alloc, earlier, config)?;
    let before = Before::new(alloc, index, &packages)?;
    let (text, _) = report_told(alloc, index, places, told, Some(&before), config)?;
    Ok(text)
}
