//! What an entry of Conflicts or Breaks hits, as clauses over the places in play.

ghost use Rattle.std.specs.Prelude.{◌≡◌, ◌<◌, ◌&&◌, OnOk, length};
ghost use Rattle.deb_relation.specs.Relationship.{atom_view};
ghost use Rattle.deb_index.specs.Packages.{aparts_at};
ghost use Rattle.deb_index.specs.Meets.{meets_at};
ghost use Rattle.deb_index.specs.Constraints.{Holds};
ghost use Rattle.deb_encode.specs.Encoders.{KeepsOut, Tells, in_play};
ghost use Rattle.deb_encode.specs.Exclusions.{Lists};

use crate::encoder::Encoder;
use crate::play::Play;
use deb_index::Constraint;
use deb_relation::Atom;
use std::alloc::AllocError;

/// Lists the places in play that meet an atom.
pub(crate) fn list_meeting(
    play: &Play<'_>,
    atom: &Atom,
    found: &mut Vec<u32>,
) -> Result<(), AllocError>
    ensures { OnOk result (Lists (λ q. in_play play.now q && meets_at play.now.index.now q (atom_view atom.now)) found.new.items) }
{
    found.clear();
    for number in 0..play.count() {
        let place = play.place(number);
        if play.index.meets(place, atom) {
            found.push(place)?;
        }
    }
    Ok(())
}

impl Encoder<'_> {
    /// Adds that a place is not in together with another one of a row.
    pub(crate) fn add_apart_from(&mut self, place: u32, row: &[u32]) -> Result<(), AllocError>
        ensures { OnOk result (Tells (λ play. KeepsOut place row.now) self.old self.new) }
    {
        for other in row {
            let play = self.play;
            // (most others are in no set, which is seen at once)
            if *other != place && play.may_have(*other) {
                self.add_if(place, &[*other], false)?;
            }
        }
        Ok(())
    }

    /// Adds that the package at a place is not in, or no other one that meets its entry is. `found` is a buffer. The error is want of memory.
    ///
    /// Whichever is shorter is gone through: the row of those that meet it, or the places in play. `place` is below the index's length,
    /// `number` below its count of entries.
    pub(crate) fn add_apart(
        &mut self,
        place: u32,
        number: u32,
        found: &mut Vec<u32>,
    ) -> Result<(), AllocError>
        requires place { place < length self.old.play.index.now.packages }
        requires number { number < length (aparts_at self.old.play.index.now place) }
        ensures { OnOk result (Tells (λ play set. Holds play.index.now set (Constraint.Apart place number)) self.old self.new) }
    {
        let play = self.play;
        if let Some(row) = play.index.hit_row(place, number) {
            if row.len() <= play.count() {
                return self.add_apart_from(place, row);
            }
        }
        list_meeting(&play, play.index.apart(place, number), found)?;
        self.add_apart_from(place, found)
    }
}
