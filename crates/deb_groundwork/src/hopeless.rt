//! Places that no healthy set has, since something that they need without a choice has a need that nothing meets.

ghost use Rattle.std.specs.Prelude.{◌≡◌, ◌<◌, ℕ, true, OnOk, length};
ghost use Rattle.deb_index.specs.Packages.{needs_at};
ghost use Rattle.deb_index.specs.Constraints.{answers};
ghost use Rattle.number_sets.specs.Sets.{members_of, IsWithin};
ghost use Rattle.deb_health.specs.Health.{IsHopeless};
ghost use Rattle.deb_groundwork.specs.Groundwork.{AreHopeless};

use crate::limits::PASSES;
use crate::rows::{essential_count, essential_row, has_all};
use deb_index::Index;
use number_sets::SparseSet;
use std::alloc::AllocError;

/// Whether hopeless places alone answer a need, or none. `false` where the answers are too many for a row.
pub(crate) fn is_unanswered(index: &Index, hopeless: &SparseSet, place: u32, number: u32) -> bool
    requires place { place < length index.now.packages }
    requires number { number < length (needs_at index.now place) }
    ensures { result ≡ true → IsWithin (answers index.now place number) (members_of hopeless.now) }
{
    match index.answer_row(place, number) {
        Some(row) => has_all(hopeless, row),
        None => false,
    }
}

/// Whether hopeless places alone answer some need of a place, or none.
fn has_unanswered(index: &Index, hopeless: &SparseSet, place: u32) -> bool
    requires place { place < length index.now.packages }
    requires hopeless { AreHopeless index.now (members_of hopeless.now) }
    ensures { result ≡ true → IsHopeless index.now place }
{
    for number in 0..index.need_count(place) {
        if is_unanswered(index, hopeless, place, number) {
            return true;
        }
    }
    false
}

/// Puts in a place that is seen to be hopeless.
fn visit(index: &Index, place: u32, hopeless: &mut SparseSet) -> Result<(), AllocError>
    requires place { place < length index.now.packages }
    requires hopeless { AreHopeless index.now (members_of hopeless.old) }
    ensures { OnOk result (AreHopeless index.now (members_of hopeless.new)) }
{
    if has_unanswered(index, hopeless, place) {
        hopeless.insert(place)?;
    }
    Ok(())
}

/// Visits all places, in rising order or in falling order.
fn visit_all(index: &Index, falling: bool, hopeless: &mut SparseSet) -> Result<(), AllocError>
    requires { AreHopeless index.now (members_of hopeless.old) }
    ensures { OnOk result (AreHopeless index.now (members_of hopeless.new)) }
{
    let count = index.len();
    for step in 0..count {
        let place = if falling { count - 1 - step } else { step };
        visit(index, place, hopeless)?;
    }
    Ok(())
}

/// Finds places that no healthy set has since a need of theirs lacks an answer that some has, pass by pass, until none comes. After the last
/// pass some may be left out.
pub(crate) fn find_lacking(index: &Index, hopeless: &mut SparseSet) -> Result<(), AllocError>
    requires { AreHopeless index.now (members_of hopeless.old) }
    ensures { OnOk result (AreHopeless index.now (members_of hopeless.new)) }
{
    for pass in 0..PASSES {
        let known = hopeless.as_slice().len();
        visit_all(index, pass % 2 == 1, hopeless)?;
        if hopeless.as_slice().len() == known {
            return Ok(());
        }
    }
    Ok(())
}

/// Whether all packages of some essential name are hopeless: then all packages are.
pub(crate) fn lacks_essential(index: &Index, hopeless: &SparseSet) -> bool
    requires { AreHopeless index.now (members_of hopeless.now) }
    ensures { result ≡ true → (place : ℕ) → IsHopeless index.now place }
{
    for position in 0..essential_count(index) {
        if has_all(hopeless, essential_row(index, position)) {
            return true;
        }
    }
    false
}
