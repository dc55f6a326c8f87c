//! Marks on the names of an index.

ghost use Rattle.std.specs.Prelude.{◌<◌, All, IfOk, length, map};
ghost use Rattle.deb_report.specs.Since.{AreMarks, broken_view, has_named, was_broken};

use crate::broken::BrokenPackage;
use deb_index::Index;
use std::alloc::{AllocError, Global};

/// Marks the names of packages that were broken in an earlier index.
pub(crate) fn marks_of(
    alloc: Global,
    index: &Index,
    before: &[BrokenPackage],
) -> Result<Vec<bool>, AllocError>
    ensures { IfOk result (λ marks. AreMarks index.now (was_broken (map broken_view before.now)) marks.items) }
{
    let mut marks = vec![in alloc; false; index.name_count() as usize]?;
    for deb in before {
        if let Some(number) = index.name_number(deb.name.as_slice()) {
            marks[number as usize] = true;
        }
    }
    Ok(marks)
}

/// Marks the names of the packages at these places.
pub(crate) fn marks_at(
    alloc: Global,
    index: &Index,
    places: &[u32],
) -> Result<Vec<bool>, AllocError>
    requires { All (λ place. place < length index.now.packages) places.now }
    ensures { IfOk result (λ marks. AreMarks index.now (has_named index.now places.now) marks.items) }
{
    let mut marks = vec![in alloc; false; index.name_count() as usize]?;
    for place in places {
        marks[index.name_of(*place) as usize] = true;
    }
    Ok(marks)
}
