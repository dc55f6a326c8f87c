//! Whether a set is healthy, as far as a part of the constraints asks: looked up for each of its places, without a claim on how it came to be.

ghost use Rattle.std.specs.Prelude.{◌≡◌, ℕ, ◌<◌, ◌≤◌, ◌&&◌, ltb, Some, true, All, IfSome, length, slice_get};
ghost use Rattle.std.specs.List.{list_any};
ghost use Rattle.deb_index.specs.Packages.{essential_names, needs_at, aparts_at};
ghost use Rattle.number_sets.specs.Sets.{members_of};
ghost use Rattle.deb_health.specs.Health.{MeetsAt};
ghost use Rattle.deb_groundwork.specs.Parts.{HasNoEarlier, positions_in, MeetsAsked, MeetsAskedOf, StandsOnce};

use crate::answering::is_answered;
use crate::limits::FEW;
use crate::part::Part;
use crate::rows::{Places, essential_count, essential_row, has_any, hits_no_other};
use deb_index::{Constraint, Index};

/// Whether the set has some package of an essential name, where the part asks for it.
fn meets_essential<P: Places>(part: &Part<'_>, set: &P, position: u32) -> bool
    requires { position < length (essential_names part.now.index.now) }
    ensures { result ≡ true → (number : ℕ) → slice_get (essential_names part.now.index.now) position ≡ Some number
        → MeetsAsked part.now (P.members set.now) (Constraint.Essential number) }
{
    if has_any(set, essential_row(part.index, position)) {
        return true;
    }
    !part.has(position)
}

/// Whether the set has some package of each essential name that the part asks for.
pub(crate) fn meets_essentials<P: Places>(part: &Part<'_>, set: &P) -> bool
    ensures { result ≡ true → (number : ℕ) → MeetsAsked part.now (P.members set.now) (Constraint.Essential number) }
{
    for position in 0..essential_count(part.index) {
        if !meets_essential(part, set, position) {
            return false;
        }
    }
    true
}

/// The next number of a need of a place to look at, where the set answers the one with this number or the part doesn't ask for it.
fn pass_need<P: Places>(part: &Part<'_>, set: &P, place: u32, number: u32) -> Option<u32>
    requires place { place < length part.now.index.now.packages }
    requires number { number < length (needs_at part.now.index.now place) }
    ensures later { IfSome result (λ next. number < next) }
    ensures met { IfSome result (λ next. (j : ℕ) → number ≤ j → j < next → j < length (needs_at part.now.index.now place)
        → MeetsAsked part.now (P.members set.now) (Constraint.Need place j)) }
{
    let index = part.index;
    let _limit = index.need_count(place);
    if !part.has(index.need_position(place, number)) {
        return Some(part.next_need(place, number + 1));
    }
    if is_answered(index, set, place, number) {
        Some(number + 1)
    } else {
        None
    }
}

/// Whether an entry of a place hits no other one of the set, where the part asks for it.
fn meets_apart<P: Places>(part: &Part<'_>, set: &P, place: u32, number: u32) -> bool
    requires place { place < length part.now.index.now.packages }
    requires number { number < length (aparts_at part.now.index.now place) }
    ensures { result ≡ true → MeetsAsked part.now (P.members set.now) (Constraint.Apart place number) }
{
    let index = part.index;
    if hits_no_other(index, set, place, number) {
        return true;
    }
    !part.has(index.apart_position(place, number))
}

/// Whether the set has no earlier package of the name of the one at a place. `false` where there are many of the name.
pub(crate) fn has_no_earlier<P: Places>(index: &Index, set: &P, place: u32) -> bool
    requires { place < length index.now.packages }
    ensures { result ≡ true → HasNoEarlier index.now (P.members set.now) place }
{
    let row = index.versions_of(place);
    if row.len() > FEW as usize {
        return false;
    }
    for other in row {
        if *other < place && set.has(*other) {
            return false;
        }
    }
    true
}

/// Whether the set has no earlier package of the name of the one at a place, where the part asks that one alone is in.
fn stands_once<P: Places>(part: &Part<'_>, set: &P, place: u32) -> bool
    requires { place < length part.now.index.now.packages }
    ensures { result ≡ true → StandsOnce part.now (P.members set.now) place }
{
    let index = part.index;
    let name = index.name_of(place);
    if has_no_earlier(index, set, place) {
        return true;
    }
    !part.has(index.only_position(name))
}

/// Whether the set meets what the part asks of the package at a place.
pub(crate) fn meets_place<P: Places>(part: &Part<'_>, set: &P, place: u32) -> bool
    requires { place < length part.now.index.now.packages }
    ensures { result ≡ true → MeetsAskedOf part.now (P.members set.now) place }
{
    let count = part.index.need_count(place);
    let mut number = 0;
    while number < count {
        let Some(next) = pass_need(part, set, place, number) else {
            return false;
        };
        number = next;
    }
    for entry in 0..part.index.apart_count(place) {
        if !meets_apart(part, set, place, entry) {
            return false;
        }
    }
    stands_once(part, set, place)
}
