//! Places that are in every healthy set.

ghost use Rattle.std.specs.Prelude.{◌≡◌, ◌⊎◌, ℕ, ◌<◌, ◌∷◌, [], true, OnOk, length};
ghost use Rattle.number_sets.specs.Sets.{members_of, AreNumbers, with_number};
ghost use Rattle.deb_groundwork.specs.Groundwork.{KeepsForced};

use crate::rows::{essential_count, essential_row};
use deb_index::Index;
use number_sets::SparseSet;
use std::alloc::AllocError;

/// Puts in the only place of a row, if it has one only.
fn take_only(row: &[u32], forced: &mut SparseSet) -> Result<(), AllocError>
    ensures { OnOk result ((forced.new ≡ forced.old) ⊎ ((only : ℕ) × (row.now ≡ only ∷ []) × (forced.new ≡ with_number forced.old only))) }
{
    match row {
        [only] => forced.insert(*only)?,
        _ => {}
    }
    Ok(())
}

/// Puts in what alone answers a need of the place, which is in. Nothing, where the place is marked.
fn force_needs(
    index: &Index,
    met: &[bool],
    place: u32,
    forced: &mut SparseSet,
) -> Result<(), AllocError>
    requires place { place < length index.now.packages }
    requires known { members_of forced.old place ≡ true }
    ensures { OnOk result (KeepsForced index.now forced.old forced.new) }
{
    if met.get(place as usize) == Some(&true) {
        return Ok(());
    }
    for number in 0..index.need_count(place) {
        if let Some(row) = index.answer_row(place, number) {
            take_only(row, forced)?;
        }
    }
    Ok(())
}

/// Puts in the only package of each essential name that has one only.
pub(crate) fn force_essential(index: &Index, forced: &mut SparseSet) -> Result<(), AllocError>
    ensures { OnOk result (KeepsForced index.now forced.old forced.new) }
{
    for position in 0..essential_count(index) {
        take_only(essential_row(index, position), forced)?;
    }
    Ok(())
}

/// Puts in what alone answers a need of a place that is in, as long as places come.
///
/// The first places of the list are not asked again, and those not at all whose mark says that what is in answers their needs anyway.
pub(crate) fn force_from(
    index: &Index,
    met: &[bool],
    start: usize,
    forced: &mut SparseSet,
) -> Result<(), AllocError>
    requires { AreNumbers (length index.now.packages) forced.old }
    ensures { OnOk result (KeepsForced index.now forced.old forced.new) }
{
    let mut visited = start;
    while visited < forced.as_slice().len() {
        let place = forced.as_slice()[visited];
        force_needs(index, met, place, forced)?;
        visited += 1;
    }
    Ok(())
}
