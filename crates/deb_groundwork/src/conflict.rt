//! A constraint that keeps two places apart that are in.

ghost use Rattle.std.specs.Prelude.{◌<◌, length};

use crate::derivation::Step;
use crate::part::Part;
use crate::rows::other_in;
use number_sets::SparseSet;

/// A constraint of the part that keeps a place that is in from another one.
fn conflict_of(part: &Part<'_>, place: u32, forced: &SparseSet) -> Option<Step>
    requires { place < length part.now.index.now.packages }
{
    let index = part.index;
    for number in 0..index.apart_count(place) {
        let Some(row) = index.hit_row(place, number) else {
            continue;
        };
        if let Some(other) = other_in(forced, row, place) {
            if part.has(index.apart_position(place, number)) {
                return Some(Step::Apart(place, number, other));
            }
        }
    }
    let row = index.versions_of(place);
    if row.len() > forced.as_slice().len() || !part.has(index.only_position(index.name_of(place))) {
        return None;
    }
    let other = other_in(forced, row, place)?;
    Some(Step::Only(place, other))
}

/// A constraint of the part that keeps two places apart that are in.
pub(crate) fn conflict_in(part: &Part<'_>, forced: &SparseSet) -> Option<Step> {
    for place in forced.as_slice() {
        if *place >= part.index.len() {
            return None;
        }
        if let Some(step) = conflict_of(part, *place, forced) {
            return Some(step);
        }
    }
    None
}
