//! That at most one package of a name is in.

ghost use Rattle.std.specs.Prelude.{◌≡◌, ℕ, ◌<◌, ◌&&◌, true, OnOk, length};
ghost use Rattle.deb_index.specs.Packages.{names};
ghost use Rattle.deb_index.specs.Constraints.{Holds, HasOneVersion};
ghost use Rattle.deb_encode.specs.Encoders.{Tells, in_play};
ghost use Rattle.deb_encode.specs.Exclusions.{Lists, AreNamesOf, is_of_name};

use crate::encoder::Encoder;
use crate::gathered::{Exclusion, Gathered};
use crate::play::Play;
use deb_index::{Constraint, Index};
use number_sets::SparseSet;
use std::alloc::AllocError;

/// Whether the package at a place has a name.
fn is_named(index: &Index, place: u32, name: u32) -> bool
    requires place { place < length index.now.packages }
    requires name { name < length (names index.now) }
    ensures { result ≡ is_of_name index.now name place }
{
    index.name_text(name) == index.package(place).name.as_slice()
}

/// Lists the places in play that have a name.
fn list_named(play: &Play<'_>, name: u32, found: &mut Vec<u32>) -> Result<(), AllocError>
    requires { name < length (names play.now.index.now) }
    ensures { OnOk result (Lists (λ q. in_play play.now q && is_of_name play.now.index.now name q) found.new.items) }
{
    found.clear();
    for number in 0..play.count() {
        let place = play.place(number);
        if is_named(play.index, place, name) {
            found.push(place)?;
        }
    }
    Ok(())
}

/// Lists the names of the places in play that don't stand alone.
fn list_names(play: &Play<'_>, found: &mut SparseSet) -> Result<(), AllocError>
    ensures { OnOk result (AreNamesOf play.now.index.now (in_play play.now) found.new) }
{
    found.clear();
    for number in 0..play.count() {
        let place = play.place(number);
        if !play.is_alone(place) {
            found.insert(play.index.name_of(place))?;
        }
    }
    Ok(())
}

impl Encoder<'_> {
    /// Adds that at most one package of a name is in. `found` and `exclusion` are buffers.
    ///
    /// Whichever is shorter is gone through: the row of the places of the name, or the places in play.
    pub(crate) fn add_only(
        &mut self,
        name: u32,
        found: &mut Vec<u32>,
        exclusion: &mut Exclusion,
    ) -> Result<(), AllocError>
        requires { name < length (names self.old.play.index.now) }
        ensures { OnOk result (Tells (λ play set. Holds play.index.now set (Constraint.Only name)) self.old self.new) }
    {
        let play = self.play;
        let row = play.index.places_named(name);
        if row.len() < 2 {
            return Ok(());
        }
        if row.len() <= play.count() {
            return self.add_all_apart(row, row, exclusion);
        }
        list_named(&play, name, found)?;
        let found = found.as_slice();
        self.add_all_apart(found, found, exclusion)
    }

    /// Adds that of each place in play at most one package of its name is in. Each name is told once. `gathered` are buffers. The error is want
    /// of memory.
    pub fn add_versions(&mut self, gathered: &mut Gathered) -> Result<(), AllocError>
        ensures { OnOk result (Tells (λ play set. (q : ℕ) → in_play play q ≡ true → HasOneVersion play.index.now set q) self.old self.new) }
    {
        let play = self.play;
        list_names(&play, &mut gathered.names)?;
        for name in gathered.names.as_slice() {
            self.add_only(*name, &mut gathered.places, &mut gathered.exclusion)?;
        }
        Ok(())
    }
}
