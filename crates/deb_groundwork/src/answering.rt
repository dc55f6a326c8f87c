//! Whether a set answers a need: by its row, or, where it has too many answers for one, by the first bearers of its alternatives' names. None of
//! the many others are looked at.

ghost use Rattle.std.specs.Prelude.{◌≡◌, ℕ, ◌<◌, true, length};
ghost use Rattle.std.specs.List.{list_any};
ghost use Rattle.deb_relation.specs.Relationship.{atom_view};
ghost use Rattle.deb_index.specs.Packages.{needs_at, need_at};
ghost use Rattle.deb_index.specs.Meets.{group_satisfiers, need_satisfiers};
ghost use Rattle.number_sets.specs.Sets.{members_of};
ghost use Rattle.deb_groundwork.specs.Groundwork.{HasAnswers};

use crate::limits::{ALTERNATIVES, BEARERS};
use crate::rows::{Places, has_any};
use deb_index::Index;
use deb_relation::Atom;
use number_sets::SparseSet;

/// A bearer of a name: a place that has it or, behind these, one that provides it.
pub(crate) fn bearer(named: &[u32], provided: &[(u32, u32)], number: usize) -> Option<u32> {
    if number < named.len() {
        return Some(named[number]);
    }
    let entry = provided.get(number - named.len())?;
    Some(entry.0)
}

/// Whether a bearer of its name that is in meets an alternative.
fn has_bearer<P: Places>(index: &Index, set: &P, atom: &Atom) -> bool
    ensures { result ≡ true → list_any (P.members set.now) (need_satisfiers index.now (atom_view atom.now)) ≡ true }
{
    let named = index.places_of(atom.name.as_slice());
    let provided = index.provides_of(atom.name.as_slice());
    for number in 0..BEARERS {
        let Some(place) = bearer(named, provided, number) else {
            return false;
        };
        if place < index.len() && set.has(place) && index.meets_need(place, atom) {
            return true;
        }
    }
    false
}

/// Whether a bearer of an alternative's name that is in answers a need.
pub(crate) fn has_answer<P: Places>(index: &Index, set: &P, place: u32, number: u32) -> bool
    requires place { place < length index.now.packages }
    requires number { number < length (needs_at index.now place) }
    ensures { result ≡ true → list_any (P.members set.now) (group_satisfiers index.now (need_at index.now place number)) ≡ true }
{
    let alternatives = index.need(place, number);
    for tried in 0..alternatives.len().min(ALTERNATIVES) {
        if has_bearer(index, set, &alternatives[tried]) {
            return true;
        }
    }
    false
}

/// Whether a place that is in answers a need. `false`, too, where there is no row and none of the first bearers does.
pub(crate) fn is_answered<P: Places>(index: &Index, set: &P, place: u32, number: u32) -> bool
    requires place { place < length index.now.packages }
    requires number { number < length (needs_at index.now place) }
    ensures { result ≡ true → list_any (P.members set.now) (group_satisfiers index.now (need_at index.now place number)) ≡ true }
{
    match index.answer_row(place, number) {
        Some(row) => has_any(set, row),
        None => has_answer(index, set, place, number),
    }
}

/// Whether a set is seen to answer each need of a place.
pub(crate) fn are_answered(index: &Index, set: &SparseSet, place: u32) -> bool
    requires { place < length index.now.packages }
    ensures { result ≡ true → HasAnswers index.now (members_of set.now) place }
{
    for number in 0..index.need_count(place) {
        if !is_answered(index, set, place, number) {
            return false;
        }
    }
    true
}
