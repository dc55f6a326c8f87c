//! Refutes a part of the constraints by forcing alone: what the package asks for with no choice, down to a contradiction. Members of a base set are
//! passed over, since each has what it asks for. Where memory is wanting no contradiction is seen.

ghost use Rattle.std.specs.Prelude.{◌≡◌, ◌<◌, true, false, length};
ghost use Rattle.deb_groundwork.specs.Parts.{IsRefutedBy};

use crate::base_set::BaseSet;
use crate::conflict::conflict_in;
use crate::derivation::{Step, is_refutation};
use crate::part::Part;
use crate::rows::{essential_count, essential_row};
use deb_index::Index;
use number_sets::{SparseSet, sort_once};
use std::alloc::Global;
use std::mem;

/// The buffers of propagation.
#[derive(Drop)]
pub struct Propagation {
    /// What is forced, in the order in which it came.
    forced: SparseSet,
    /// The step that forced each of these but the first.
    causes: Vec<Step>,
    /// The places that a contradiction rests on.
    needed: SparseSet,
    /// The numbers of the steps that forced these.
    numbers: Vec<u32>,
    /// The steps that it rests on, its own first.
    steps: Vec<Step>,
    /// What is in by the steps that are checked.
    checked: SparseSet,
    /// The positions of their constraints.
    positions: Vec<u32>,
    /// How many of the forced places were visited without a contradiction.
    visited: usize,
    /// The package for which they are, and how many members the base set has, if they are forced by all constraints that aren't taken out.
    whole: Option<(u32, usize)>,
}

impl Propagation {
    /// Buffers with no room yet.
    pub fn new(alloc: Global) -> Propagation {
        Propagation {
            forced: SparseSet::new(alloc),
            causes: Vec::new(alloc),
            needed: SparseSet::new(alloc),
            numbers: Vec::new(alloc),
            steps: Vec::new(alloc),
            checked: SparseSet::new(alloc),
            positions: Vec::new(alloc),
            visited: 0,
            whole: None,
        }
    }

    /// Takes in the place of a row of one, unless an earlier step forced it, or it is in the base set. `true`: the row has none.
    fn take(&mut self, base: &BaseSet, row: &[u32], step: Step) -> bool {
        let place = match row {
            [] => return true,
            [only] => *only,
            _ => return false,
        };
        if base.members.contains(place) || self.forced.contains(place) {
            return false;
        }
        if self.forced.insert(place).is_ok() {
            let _noted = self.causes.push(step);
        }
        false
    }

    /// Forces what alone answers a need of a place. A need that nothing answers is a contradiction. Last needs go first, since the first core lacks
    /// early constraints.
    fn visit(&mut self, part: &Part<'_>, base: &BaseSet, place: u32) -> Option<Step>
        requires { place < length part.now.index.now.packages }
    {
        for number in (part.next_need(place, 0)..part.index.need_count(place)).rev() {
            if !part.has(part.index.need_position(place, number)) {
                continue;
            }
            let step = Step::Need(place, number);
            if let Some(row) = part.index.answer_row(place, number) {
                if self.take(base, row, step) {
                    return Some(step);
                }
            }
        }
        None
    }

    /// Forces from the first place on that isn't visited, and looks for a contradiction.
    fn propagate(&mut self, part: &Part<'_>, base: &BaseSet) -> Option<Step> {
        for visited in self.visited..part.index.len() as usize {
            self.visited = visited;
            let Some(place) = self.forced.as_slice().get(visited).copied() else {
                break;
            };
            if place >= part.index.len() {
                return None;
            }
            if let Some(step) = self.visit(part, base, place) {
                return Some(step);
            }
        }
        conflict_in(part, &self.forced)
    }

    /// Forces the packages of essential names that have one only.
    fn force_essential(&mut self, part: &Part<'_>, base: &BaseSet) {
        for number in 0..essential_count(part.index) {
            if part.has(number) {
                let row = essential_row(part.index, number);
                self.take(base, row, Step::Essential(number));
            }
        }
    }

    /// Begins with the package at a place. Where only constraints that force nothing were taken out since, it goes on where the last contradiction was
    /// seen. `false` for want of memory.
    fn begin(&mut self, part: &Part<'_>, base: &BaseSet, p: u32) -> bool {
        let whole = (p, base.members.as_slice().len());
        if part.rest == 0 && part.may_lack_one() && self.whole == Some(whole) {
            return true;
        }
        self.whole = if part.rest == 0 { Some(whole) } else { None };
        self.visited = 0;
        self.forced.clear();
        self.causes.clear();
        self.forced.insert(p).is_ok()
    }

    /// The step that contradicts, where forcing leads to one. What the package itself asks for goes first.
    fn find(&mut self, part: &Part<'_>, base: &BaseSet, p: u32) -> Option<Step> {
        if !self.begin(part, base, p) {
            return None;
        }
        if let Some(step) = self.propagate(part, base) {
            return Some(step);
        }
        let visited = self.forced.as_slice().len();
        self.force_essential(part, base);
        if self.forced.as_slice().len() == visited {
            return None;
        }
        self.propagate(part, base)
    }

    /// Whether a base set has no room for something that was forced last.
    pub fn lacks_room(&self, index: &Index, base: &BaseSet) -> bool {
        for place in self.forced.as_slice() {
            if *place < index.len() && !base.has_room(index, *place) {
                return true;
            }
        }
        false
    }

    /// Takes down that the places are needed that a step is held against.
    fn need(&mut self, step: Step) -> bool {
        let (first, second) = match step {
            Step::Essential(_) => return true,
            Step::Need(place, _) => (place, place),
            Step::Apart(place, _, other) => (place, other),
            Step::Only(first, second) => (first, second),
        };
        self.needed.insert(first).is_ok() && self.needed.insert(second).is_ok()
    }

    /// Writes down the steps that a contradiction rests on, the last one first. `false` for want of memory.
    fn derive(&mut self, conflict: Step) -> bool {
        self.needed.clear();
        self.numbers.clear();
        self.steps.clear();
        let mut written = self.need(conflict) && self.steps.push(conflict).is_ok();
        for visited in 0..self.forced.as_slice().len() {
            let Some(place) = self.needed.as_slice().get(visited) else {
                break;
            };
            // No step forced the first place.
            let position = self.forced.position_of(*place).unwrap_or(0);
            let Some(number) = position.checked_sub(1) else {
                continue;
            };
            let Some(cause) = self.causes.get(number).copied() else {
                return false;
            };
            let number = number.min(u32::MAX as usize) as u32;
            written &= self.need(cause) && self.numbers.push(number).is_ok();
        }
        sort_once(&mut self.numbers);
        for number in self.numbers.iter().rev() {
            let Some(cause) = self.causes.get(*number as usize).copied() else {
                return false;
            };
            written &= self.steps.push(cause).is_ok();
        }
        written
    }
}

/// Whether a part of the constraints is seen to admit no set with the package at a place, by forcing alone, and none but what is beside the base
/// set. Where it is, `used` has the positions of constraints of the part that already admit none.
pub fn refute_by_forcing(
    part: &Part<'_>,
    p: u32,
    base: &BaseSet,
    buffers: &mut Propagation,
    used: &mut Vec<u32>,
) -> bool
    requires { p < length part.now.index.now.packages }
    ensures refuted { result ≡ true → IsRefutedBy used.new.items part.now p }
    ensures still { result ≡ false → used.new.items ≡ used.old.items }
{
    let Some(conflict) = buffers.find(part, base, p) else {
        return false;
    };
    if !buffers.derive(conflict) {
        return false;
    }
    let holds = is_refutation(
        part,
        p,
        &buffers.steps,
        &mut buffers.checked,
        &mut buffers.positions,
    );
    if holds {
        mem::swap(&mut buffers.positions, used);
    }
    holds
}
