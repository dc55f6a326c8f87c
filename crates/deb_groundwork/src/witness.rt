//! A set of packages that meets a part of the constraints, found without a search. Whether the set that grew meets the part is looked up, and
//! no claim rests on how it grew.

ghost use Rattle.std.specs.Prelude.{◌≡◌, ℕ, ◌<◌, true, IfNone, length};
ghost use Rattle.number_sets.specs.Sets.{members_of};
ghost use Rattle.deb_health.specs.Causes.{either};
ghost use Rattle.deb_health.specs.Health.{Admits};
ghost use Rattle.deb_groundwork.specs.BaseSets.{HasRoom, IsBase};
ghost use Rattle.deb_groundwork.specs.Parts.{positions_in, MeetsAskedOf};

use crate::base_set::{BaseSet, OnBase};
use crate::choice::Ground;
use crate::growth::Witness;
use crate::healthy_set::{meets_essentials, meets_place};
use crate::limits::WITNESS_TRIES;
use crate::part::Part;
use number_sets::SparseSet;

/// A place that has no room on a base set, or doesn't meet what the part asks of it.
fn place_amiss(part: &Part<'_>, base: &BaseSet, more: &SparseSet) -> Option<u32>
    ensures room { IfNone result ((q : ℕ) → members_of more.now q ≡ true → HasRoom part.now.index.now base.now q) }
    ensures meets { IfNone result ((q : ℕ) → members_of more.now q ≡ true
        → MeetsAskedOf part.now (either (members_of base.now.members) (members_of more.now)) q) }
{
    let set = OnBase { base, more };
    for place in more.as_slice() {
        if *place >= part.index.len() {
            return Some(*place);
        }
        if !base.has_room(part.index, *place) || !meets_place(part, &set, *place) {
            return Some(*place);
        }
    }
    None
}

/// Whether places on a base set, with which nothing is amiss, have the package at a place, and with the base set the essential names.
fn is_witness(part: &Part<'_>, p: u32, base: &BaseSet, more: &SparseSet) -> bool
    requires base { IsBase part.now.index.now base.now }
    requires room { (q : ℕ) → members_of more.now q ≡ true → HasRoom part.now.index.now base.now q }
    requires meets { (q : ℕ) → members_of more.now q ≡ true → MeetsAskedOf part.now (either (members_of base.now.members) (members_of more.now)) q }
    ensures { result ≡ true → Admits part.now.index.now p (positions_in part.now) }
{
    let set = OnBase { base, more };
    more.contains(p) && meets_essentials(part, &set)
}

/// Whether a set with the package at a place is seen to meet a part of the constraints.
///
/// A set that is found without a search is enough: on the base set each need takes what is in, or else one of its answers. The last set for the
/// package goes on growing first, if it may. Where a try leads nowhere, the next one goes without what led there.
pub fn is_seen_to_admit(
    part: &Part<'_>,
    p: u32,
    base: &BaseSet,
    lacking: &SparseSet,
    witness: &mut Witness,
) -> bool
    requires place { p < length part.now.index.now.packages }
    requires base { IsBase part.now.index.now base.now }
    ensures { result ≡ true → Admits part.now.index.now p (positions_in part.now) }
{
    let ground = Ground {
        part: *part,
        base,
        lacking,
        asks_all: false,
        last_first: false,
    };
    witness.start();
    if !base.has_room(part.index, p) {
        return false;
    }
    if witness.grow_further(&ground, p)
        && place_amiss(part, base, &witness.more.members).is_none()
        && is_witness(part, p, base, &witness.more.members)
    {
        return true;
    }
    for _ in 0..WITNESS_TRIES {
        let place = match witness.grow(&ground, p) {
            Some(place) => place,
            None => match place_amiss(part, base, &witness.more.members) {
                Some(place) => place,
                None => return is_witness(part, p, base, &witness.more.members),
            },
        };
        if !witness.rule_out(part.index, place) {
            return false;
        }
    }
    false
}
