//! The encoder: it adds to one group of a formula what is told of the places in play.

ghost use Rattle.std.specs.Prelude.{◌≡◌, ◌<◌, ◌||◌, not, true, All, OnOk, length};

use crate::gathered::Gathered;
use crate::play::Play;
use deb_index::Constraint;
use sat_solve::{Formula, Lit};
use std::alloc::AllocError;

/// The places in play, a formula with a variable for each candidate, and the group of it that clauses are added to.
///
/// The formula is lent: each call that adds says that it is still the same one. `clause` is a buffer.
#[derive(Drop)]
pub struct Encoder<'a> {
    pub play: Play<'a>,
    pub formula: &'a mut Formula,
    pub group: u32,
    pub clause: &'a mut Vec<Lit>,
    ghost vars: { formula.now.vars ≡ length play.candidates.now },
    ghost in_range: { group < formula.now.groups },
}

impl Encoder<'_> {
    ghost use Rattle.std.specs.List.{list_any};
    ghost use Rattle.deb_index.specs.Packages.{names, needs_at};
    ghost use Rattle.deb_index.specs.Constraints.{Holds};
    ghost use Rattle.sat_solve.specs.Clauses.{clause_holds};
    ghost use Rattle.deb_encode.specs.Encoders.{AddsVars, Tells, set_of, stands};
    ghost use Rattle.deb_encode.specs.Exclusions.{MeetsEssentials};

    /// Adds the clause that was made, unless what it says holds anyway.
    fn add_unless(&mut self, anyway: bool) -> Result<(), AllocError>
        requires { All (λ literal. literal.var < length self.old.play.candidates.now) self.old.clause.now.items }
        ensures { OnOk result (AddsVars (λ play vars. (anyway || clause_holds vars self.old.clause.now.items) ≡ true) self.old self.new) }
    {
        if anyway {
            return Ok(());
        }
        self.formula.add(self.group, self.clause)
    }

    /// Adds that a place is not in, or that one of others is, or that one of them is out.
    pub(crate) fn add_if(
        &mut self,
        place: u32,
        others: &[u32],
        positive: bool,
    ) -> Result<(), AllocError>
        ensures { OnOk result (AddsVars (λ play vars. (not (set_of play vars place) || list_any (λ q. stands play vars positive q) others.now) ≡ true)
            self.old self.new) }
    {
        let play = self.play;
        self.clause.clear();
        if play.or_place(place, false, self.clause)? {
            return Ok(());
        }
        let anyway = play.or_some(others, positive, self.clause)?;
        self.add_unless(anyway)
    }

    /// Adds that some package of an essential name is in. The error is want of memory.
    pub fn add_essential(&mut self, name: u32) -> Result<(), AllocError>
        requires { name < length (names self.old.play.index.now) }
        ensures { OnOk result (Tells (λ play set. Holds play.index.now set (Constraint.Essential name)) self.old self.new) }
    {
        self.clause.clear();
        let row = self.play.index.places_named(name);
        let anyway = self.play.or_some(row, true, self.clause)?;
        self.add_unless(anyway)
    }

    /// Adds that of each essential name some package is in. The error is want of memory.
    pub fn add_essentials(&mut self) -> Result<(), AllocError>
        ensures { OnOk result (Tells (λ play set. MeetsEssentials play.index.now set) self.old self.new) }
    {
        for name in self.play.index.essential_names() {
            self.add_essential(*name)?;
        }
        Ok(())
    }

    /// Adds that the package at a place is not in, or one that answers its group is. `gathered` are buffers. The error is want of memory.
    ///
    /// `place` is below the index's length, `number` below its count of needs.
    pub fn add_need(
        &mut self,
        place: u32,
        number: u32,
        gathered: &mut Gathered,
    ) -> Result<(), AllocError>
        requires place { place < length self.old.play.index.now.packages }
        requires number { number < length (needs_at self.old.play.index.now place) }
        ensures { OnOk result (Tells (λ play set. Holds play.index.now set (Constraint.Need place number)) self.old self.new) }
    {
        let play = self.play;
        let row = play.index.answers(place, number, &mut gathered.places)?;
        self.add_if(place, row, true)
    }
}
