//! Which answer of a need comes into a set that grows: one that nothing is seen to speak against, if there is one.

ghost use Rattle.std.specs.Prelude.{◌<◌, length};
ghost use Rattle.deb_index.specs.Packages.{needs_at};

use crate::base_set::{BaseSet, OnBase};
use crate::hopeless::is_unanswered;
use crate::limits::FEW;
use crate::part::Part;
use crate::rows::stands_apart;
use deb_index::Index;
use number_sets::SparseSet;

/// What a set grows for, and on what.
#[derive(Clone, Copy)]
pub(crate) struct Ground<'p, 'b, 'l> {
    pub(crate) part: Part<'p>,
    pub(crate) base: &'b BaseSet,
    /// Places that lack a need.
    pub(crate) lacking: &'l SparseSet,
    /// Whether the part has all that packages ask for. Then nothing comes that is seen not to fit.
    pub(crate) asks_all: bool,
    /// Whether answers go first that are the last of their names: so an index of one suite after another gives the later suite.
    pub(crate) last_first: bool,
}

impl Ground<'_, '_, '_> {
    /// Whether the part asks for a need.
    pub(crate) fn asks(&self, place: u32, number: u32) -> bool
        requires place { place < length self.now.part.index.now.packages }
        requires number { number < length (needs_at self.now.part.index.now place) }
    {
        self.asks_all || self.part.has(self.part.index.need_position(place, number))
    }
}

/// Whether nothing is seen to speak against a package: it fits to what is in, and no need that the part asks for lacks an answer that may be had.
pub(crate) fn is_fit(ground: &Ground, more: &BaseSet, place: u32) -> bool {
    let index = ground.part.index;
    if place >= index.len() {
        return false;
    }
    if !ground.base.has_room(index, place) || !more.has_room(index, place) {
        return false;
    }
    if ground.asks_all {
        let set = OnBase {
            base: ground.base,
            more: &more.members,
        };
        return !ground.lacking.contains(place) && stands_apart(index, &set, place);
    }
    for number in 0..index.need_count(place).min(FEW) {
        if is_unanswered(index, ground.lacking, place, number)
            && ground.part.has(index.need_position(place, number))
        {
            return false;
        }
    }
    true
}

/// Whether no later place has the name of the package at a place.
fn is_last_of_name(index: &Index, place: u32) -> bool {
    place < index.len() && index.versions_of(place).last() == Some(&place)
}

/// Whether a place may be chosen when a row is gone through once more: first the last ones of their names, then what fits, then the others.
fn may_come(ground: &Ground, more: &BaseSet, round: u32, place: u32) -> bool {
    match round {
        0 => is_last_of_name(ground.part.index, place) && is_fit(ground, more, place),
        1 => is_fit(ground, more, place),
        _ => true,
    }
}

/// The first place of a row that nothing is seen to speak against, or else the first that isn't known to lead nowhere.
pub(crate) fn choose(
    ground: &Ground,
    more: &BaseSet,
    unfit: &SparseSet,
    row: &[u32],
) -> Option<u32> {
    // Where all is asked for, only what fits may come; where some isn't, an only answer comes unseen.
    let first = match row {
        [_] if !ground.asks_all => 2,
        _ if ground.last_first => 0,
        _ => 1,
    };
    let end = if ground.asks_all { 2 } else { 3 };
    for round in first..end {
        for place in row {
            if !unfit.contains(*place) && may_come(ground, more, round, *place) {
                return Some(*place);
            }
        }
    }
    None
}
