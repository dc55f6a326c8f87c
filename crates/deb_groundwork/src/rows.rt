//! What a set has of a row of places.

ghost use Rattle.std.specs.Prelude.{◌≡◌, ℕ, ◌<◌, true, false, IfNone, length};
ghost use Rattle.std.specs.List.{list_any, list_all};
ghost use Rattle.deb_index.specs.Packages.{aparts_at, essential_names, package_at, places_of};
ghost use Rattle.deb_index.specs.Constraints.{Holds};
ghost use Rattle.number_sets.specs.Sets.{NumberSet, members_of, IsWithin};
ghost use Rattle.deb_groundwork.specs.BaseSets.{HasHits};
ghost use Rattle.deb_groundwork.specs.Groundwork.{IsEssentialRow};

use crate::limits::FEW;
use deb_index::{Constraint, Index};
use number_sets::SparseSet;

/// Places that are in.
pub trait Places {
    ghost members: { Self → NumberSet };

    /// Whether a place is in.
    fn has(&self, place: u32) -> bool
        ensures { result ≡ members self.now place };
}

impl Places for SparseSet {
    ghost members = { λ set. members_of set };

    fn has(&self, place: u32) -> bool {
        self.contains(place)
    }
}

/// Whether a place of the row is in.
pub fn has_any<P: Places>(set: &P, row: &[u32]) -> bool
    ensures { result ≡ list_any (P.members set.now) row.now }
{
    for place in row {
        if set.has(*place) {
            return true;
        }
    }
    false
}

/// Whether all places of a row are in.
pub(crate) fn has_all(set: &SparseSet, row: &[u32]) -> bool
    ensures { result ≡ list_all (members_of set.now) row.now }
{
    for place in row {
        if !set.contains(*place) {
            return false;
        }
    }
    true
}

/// A place of a row, other than this one, that is in.
pub(crate) fn other_in<P: Places>(set: &P, row: &[u32], place: u32) -> Option<u32>
    ensures { IfNone result ((q : ℕ) → members_of row.now q ≡ true → P.members set.now q ≡ true → q ≡ place) }
{
    for other in row {
        if *other != place && set.has(*other) {
            return Some(*other);
        }
    }
    None
}

/// Whether no place of a set has the name of a package. `false` where very many packages have it.
pub(crate) fn has_free_name(index: &Index, set: &SparseSet, place: u32) -> bool
    requires { place < length index.now.packages }
    ensures { result ≡ true → (q : ℕ) → members_of (places_of index.now (package_at index.now place).name) q ≡ true → members_of set.now q ≡ false }
{
    let versions = index.versions_of(place);
    versions.len() <= FEW as usize && !has_any(set, versions)
}

/// Whether an entry of a place hits no other one of the set. `false` where what it hits is too much for a row.
pub(crate) fn hits_no_other<P: Places>(index: &Index, set: &P, place: u32, number: u32) -> bool
    requires place { place < length index.now.packages }
    requires number { number < length (aparts_at index.now place) }
    ensures { result ≡ true → Holds index.now (P.members set.now) (Constraint.Apart place number) }
{
    match index.hit_row(place, number) {
        Some(row) => other_in(set, row, place).is_none(),
        None => false,
    }
}

/// Whether no entry of a package hits another place of a set. `false` where what one hits is too much for a row.
pub(crate) fn stands_apart<P: Places>(index: &Index, set: &P, place: u32) -> bool
    requires { place < length index.now.packages }
    ensures { result ≡ true → (j : ℕ) → j < length (aparts_at index.now place) → Holds index.now (P.members set.now) (Constraint.Apart place j) }
{
    for number in 0..index.apart_count(place) {
        if !hits_no_other(index, set, place, number) {
            return false;
        }
    }
    true
}

/// Takes in what the entries of a package hit. `false` where that is too much for a row, or for the memory.
pub(crate) fn take_hits(index: &Index, place: u32, hit: &mut SparseSet) -> bool
    requires { place < length index.now.packages }
    ensures keeps { result ≡ true → IsWithin (members_of hit.old) (members_of hit.new) }
    ensures has { result ≡ true → HasHits index.now (members_of hit.new) place }
{
    for number in 0..index.apart_count(place) {
        let Some(row) = index.hit_row(place, number) else {
            return false;
        };
        let Ok(()) = hit.extend(row) else {
            return false;
        };
    }
    true
}

/// How many essential names there are. Each is a name, so that their number fits 32 bits.
pub(crate) fn essential_count(index: &Index) -> u32
    ensures { result ≡ length (essential_names index.now) }
{
    let _names = index.name_count();
    index.essential_names().len() as u32
}

/// The places of an essential name, by its number among them, which is its position in the list of constraints.
pub(crate) fn essential_row(index: &Index, position: u32) -> &[u32]
    requires { position < length (essential_names index.now) }
    ensures { IsEssentialRow index.now position result.now }
{
    index.places_named(index.essential_names()[position as usize])
}
