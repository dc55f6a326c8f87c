//! What the entries of all places in play say: those that hit few packages each by itself. Of the others each atom is told once, with all the
//! places that keep out what meets it.

ghost use Rattle.std.specs.Prelude.{◌≡◌, ℕ, ◌<◌, ◌≤◌, not, true, None, All, IfOk, OnOk, length};
ghost use Rattle.deb_relation.specs.Relationship.{atom_view};
ghost use Rattle.deb_index.specs.Packages.{apart_at, aparts_at};
ghost use Rattle.deb_encode.specs.Encoders.{Tells, in_play};
ghost use Rattle.deb_encode.specs.Exclusions.{IsWide, EntryHolds, AddsWide, IsRun, is_narrow, MeetsEntries, MeetsNarrow};

use crate::conflicts::list_meeting;
use crate::encoder::Encoder;
use crate::gathered::{Entry, Exclusion, Gathered};
use deb_index::Index;
use deb_relation::Atom;
use std::alloc::AllocError;

/// How many packages an entry hits at most that gets a clause for each of them. Where it hits more, a list serves all who hit the same.
const NARROW_LIMIT: usize = 64;

/// Whether an entry hits many packages.
fn is_wide(index: &Index, place: u32, number: u32) -> bool
    requires place { place < length index.now.packages }
    requires number { number < length (aparts_at index.now place) }
    ensures { result ≡ not (is_narrow index.now place number) }
{
    match index.hit_row(place, number) {
        Some(row) => row.len() > NARROW_LIMIT,
        None => true,
    }
}

/// Whether an atom has a name alone.
fn is_plain(atom: &Atom) -> bool
    ensures qualifier { result ≡ true → (atom_view atom.now).qualifier ≡ None }
    ensures bound { result ≡ true → (atom_view atom.now).bound ≡ None }
{
    atom.qualifier.is_none() && atom.bound.is_none()
}

/// Whether two entries are known to have the same atom: those that are names alone.
fn is_same(index: &Index, one: Entry, other: Entry) -> bool
    requires one { IsWide index.now one }
    requires other { IsWide index.now other }
    ensures { result ≡ true → apart_at index.now other.place other.number ≡ apart_at index.now one.place one.number }
{
    let first = index.apart(one.place, one.number);
    let second = index.apart(other.place, other.number);
    is_plain(first) && is_plain(second) && first.name.as_slice() == second.name.as_slice()
}

/// Takes the places of the entries from one on that have its atom, up to the first that hasn't: where that stands.
fn take_run(
    index: &Index,
    entries: &[Entry],
    start: usize,
    owners: &mut Vec<u32>,
) -> Result<usize, AllocError>
    requires start { start < length entries.now }
    requires wide { All (IsWide index.now) entries.now }
    ensures past { IfOk result (λ end. start < end) }
    ensures within { IfOk result (λ end. end ≤ length entries.now) }
    ensures run { IfOk result (λ end. IsRun index.now entries.now start end owners.new.items) }
{
    owners.clear();
    owners.push(entries[start].place)?;
    let mut end = start + 1;
    while end < entries.len() {
        if !is_same(index, entries[start], entries[end]) {
            return Ok(end);
        }
        owners.push(entries[end].place)?;
        end += 1;
    }
    Ok(end)
}

impl Encoder<'_> {
    /// Adds what the package at a place keeps out by entries that hit few packages, and lists the others. `found` is a buffer.
    fn add_entries(
        &mut self,
        place: u32,
        entries: &mut Vec<Entry>,
        found: &mut Vec<u32>,
    ) -> Result<(), AllocError>
        requires place { place < length self.old.play.index.now.packages }
        ensures adds { OnOk result (Tells (λ play set. MeetsNarrow play.index.now set place) self.old self.new) }
        ensures wide { OnOk result (AddsWide self.old.play.index.now (λ q j. place ≡ q) entries.old.items entries.new.items) }
    {
        let index = self.play.index;
        for number in 0..index.apart_count(place) {
            if is_wide(index, place, number) {
                entries.push(Entry { place, number })?;
            } else {
                self.add_apart(place, number, found)?;
            }
        }
        Ok(())
    }

    /// Adds what these entries say, run by run. `owners`, `places` and `exclusion` are buffers.
    fn add_runs(
        &mut self,
        entries: &[Entry],
        owners: &mut Vec<u32>,
        places: &mut Vec<u32>,
        exclusion: &mut Exclusion,
    ) -> Result<(), AllocError>
        requires { All (IsWide self.old.play.index.now) entries.now }
        ensures { OnOk result (Tells (λ play set. All (EntryHolds play.index.now set) entries.now) self.old self.new) }
    {
        let play = self.play;
        let mut start = 0;
        while start < entries.len() {
            let Entry { place, number } = entries[start];
            let end = take_run(play.index, entries, start, owners)?;
            list_meeting(&play, play.index.apart(place, number), places)?;
            self.add_all_apart(owners, places, exclusion)?;
            start = end;
        }
        Ok(())
    }

    /// Adds what the places in play keep out by entries of Conflicts and Breaks. `gathered` are buffers. The error is want of memory.
    pub fn add_conflicts(&mut self, gathered: &mut Gathered) -> Result<(), AllocError>
        ensures { OnOk result (Tells (λ play set. (q : ℕ) → in_play play q ≡ true → MeetsEntries play.index.now set q) self.old self.new) }
    {
        let play = self.play;
        gathered.entries.clear();
        for number in 0..play.count() {
            let place = play.place(number);
            if !play.is_alone(place) {
                self.add_entries(place, &mut gathered.entries, &mut gathered.places)?;
            }
        }
        self.add_runs(
            &gathered.entries,
            &mut gathered.owners,
            &mut gathered.places,
            &mut gathered.exclusion,
        )
    }
}
