//! The broken packages of an index.

ghost use Rattle.std.specs.Prelude.{◌≡◌, ◌<◌, All, IfOk, length, map};
ghost use Rattle.deb_health.specs.Verdicts.{told_view};
ghost use Rattle.deb_report.specs.Since.{broken_at, broken_of, broken_view};

use crate::shown::shown_of;
use deb_health::Told;
use deb_index::Index;
use run_settings::Show;
use std::alloc::{AllocError, Global};

/// A package of an earlier index that could not be installed there.
#[derive(Drop)]
pub struct BrokenPackage {
    pub name: Vec<u8>,
    /// The text of its version.
    pub version: Vec<u8>,
}

/// The name and the version of the package at a place.
fn broken_at(alloc: Global, index: &Index, place: u32) -> Result<BrokenPackage, AllocError>
    requires { place < length index.now.packages }
    ensures { IfOk result (λ broken. broken_view broken ≡ broken_at index.now place) }
{
    let deb = index.package(place);
    Ok(BrokenPackage {
        name: Vec::from_slice(alloc, deb.name.as_slice())?,
        version: Vec::from_slice(alloc, deb.version.text())?,
    })
}

/// The broken packages of an index, in the order of the asked places.
///
/// As much is told as there are places, and the index has the places. `AllocError` where there is no memory for them.
#[tactic(auto, unfolding(crate::specs::Since::broken_of))]
pub fn broken_packages(
    alloc: Global,
    index: &Index,
    asked: &[u32],
    told: &[Told],
) -> Result<Vec<BrokenPackage>, AllocError>
    requires same { length asked.now ≡ length told.now }
    requires places { All (λ place. place < length index.now.packages) asked.now }
    ensures { IfOk result (λ broken. map broken_view broken.items ≡ broken_of index.now asked.now (map told_view told.now)) }
{
    let failures = shown_of(alloc, asked, told, Show::Failures)?;
    let shown = failures.as_slice();
    let mut broken = Vec::new(alloc);
    for one in shown {
        broken.push(broken_at(alloc, index, one.place)?)?;
    }
    Ok(broken)
}
