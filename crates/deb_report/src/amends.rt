//! The packages that were broken in an earlier index and are mended, and those that are gone.

ghost use Rattle.std.specs.Prelude.{◌≡◌, ◌<◌, ◌&&◌, All, IfOk, filter, length, map, not};
ghost use Rattle.deb_index.specs.Packages.{names};
ghost use Rattle.deb_report.specs.Since.{amends_of, amends_view, broken_view, is_gone, is_mended, mark_of};
ghost use Rattle.deb_health.specs.Verdicts.{IsAskedOf, shown_view};

use crate::asked::is_unknown;
use crate::broken::BrokenPackage;
use crate::marks::marks_at;
use crate::shown::places_of;
use deb_health::Shown;
use deb_index::Index;
use std::alloc::{AllocError, Global};

/// Packages that were broken in an earlier index, under a title that says what became of them.
#[derive(Drop)]
pub struct Amends<'b> {
    pub title: &'static str,
    pub packages: Vec<&'b BrokenPackage>,
}

/// Whether a package of this one's name is asked, and none that is broken, as marks of their names tell.
fn is_mended(index: &Index, asked: &[bool], broken: &[bool], deb: &BrokenPackage) -> bool
    requires asked { length asked.now ≡ length (names index.now) }
    requires broken { length broken.now ≡ length (names index.now) }
    ensures { result ≡ (mark_of index.now asked.now deb.now.name.items && not (mark_of index.now broken.now deb.now.name.items)) }
{
    match index.name_number(deb.name.as_slice()) {
        Some(number) => asked[number as usize] && !broken[number as usize],
        None => false,
    }
}

/// Those of whose name a package is asked and none is broken.
fn mended_of<'b>(
    alloc: Global,
    index: &Index,
    asked: &[u32],
    broken: &[Shown<'_>],
    before: &'b [BrokenPackage],
) -> Result<Vec<&'b BrokenPackage>, AllocError>
    requires asked { All (λ place. place < length index.now.packages) asked.now }
    requires broken { All (λ one. IsAskedOf index.now (shown_view one)) broken.now }
    ensures { IfOk result (λ mended. map (λ deb. broken_view deb.now) mended.items ≡
        filter (is_mended index.now asked.now (map shown_view broken.now)) (map broken_view before.now)) }
{
    let asked_marks = marks_at(alloc, index, asked)?;
    let places = places_of(alloc, broken)?;
    let broken_marks = marks_at(alloc, index, places.as_slice())?;
    let asked_names = asked_marks.as_slice();
    let broken_names = broken_marks.as_slice();
    let mut mended = Vec::new(alloc);
    for deb in before {
        if is_mended(index, asked_names, broken_names, deb) {
            mended.push(deb)?;
        }
    }
    Ok(mended)
}

/// Those of whose name the foreground has no package.
fn gone_of<'b>(
    alloc: Global,
    index: &Index,
    before: &'b [BrokenPackage],
) -> Result<Vec<&'b BrokenPackage>, AllocError>
    ensures { IfOk result (λ gone. map (λ deb. broken_view deb.now) gone.items ≡ filter (is_gone index.now) (map broken_view before.now)) }
{
    let mut gone = Vec::new(alloc);
    for deb in before {
        if is_unknown(index, deb.name.as_slice()) {
            gone.push(deb)?;
        }
    }
    Ok(gone)
}

/// What became of the packages that were broken in an earlier index, in its order: which are mended, and which are gone.
///
/// The places, and those of the broken, are of the index. `AllocError` where there is no memory for it.
#[tactic(auto, unfolding(crate::specs::Since::amends_of))]
pub fn amends_of<'b>(
    alloc: Global,
    index: &Index,
    asked: &[u32],
    broken: &[Shown<'_>],
    before: &'b [BrokenPackage],
) -> Result<Vec<Amends<'b>>, AllocError>
    requires asked { All (λ place. place < length index.now.packages) asked.now }
    requires broken { All (λ one. IsAskedOf index.now (shown_view one)) broken.now }
    ensures { IfOk result (λ lists. map amends_view lists.items ≡ amends_of index.now asked.now (map shown_view broken.now) (map broken_view before.now)) }
{
    let mended = Amends {
        title: "mended",
        packages: mended_of(alloc, index, asked, broken, before)?,
    };
    let gone = Amends {
        title: "gone",
        packages: gone_of(alloc, index, before)?,
    };
    Ok(vec![in alloc; mended, gone]?)
}
