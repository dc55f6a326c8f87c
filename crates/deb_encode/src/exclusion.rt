//! Places that are not in together with others: their variables, told in one list of those that exclude each other.

ghost use Rattle.std.specs.Prelude.{◌≡◌, true, OnOk, IfSome, IfNone, map};
ghost use Rattle.number_sets.specs.Sets.{members_of};
ghost use Rattle.deb_encode.specs.Encoders.{Tells};
ghost use Rattle.deb_encode.specs.Exclusions.{AreNotIn, AreNumbersOf};
ghost use Rattle.deb_index.specs.Constraints.{AreApart};

use crate::encoder::Encoder;
use crate::gathered::Exclusion;
use crate::play::Play;
use sat_solve::Owner;
use std::alloc::AllocError;

/// Lists the variables of those places that have one.
fn list_variables(play: &Play<'_>, places: &[u32], list: &mut Vec<u32>) -> Result<(), AllocError>
    ensures { OnOk result (AreNumbersOf play.now.candidates.now places.now list.new.items) }
{
    list.clear();
    for place in places {
        if let Some(number) = play.candidates.position_of(*place) {
            list.push(number as u32)?;
        }
    }
    Ok(())
}

/// Makes each variable of a list an owner of it.
fn own_all(group: u32, list: &[u32], owners: &mut Vec<Owner>) -> Result<(), AllocError>
    ensures { OnOk result (owners.new.items ≡ map (λ var. record { group = group; var = var }) list.now) }
{
    owners.clear();
    for var in list {
        owners.push(Owner { group, var: *var })?;
    }
    Ok(())
}

/// The first of these places that is in anyway.
fn first_in(play: &Play<'_>, places: &[u32]) -> Option<u32>
    ensures among { IfSome result (λ place. members_of places.now place ≡ true) }
    ensures is_in { IfSome result (λ place. members_of play.now.forced.now place ≡ true) }
    ensures none { IfNone result (AreNotIn play.now.forced.now places.now) }
{
    for place in places {
        if play.forced.contains(*place) {
            return Some(*place);
        }
    }
    None
}

impl Encoder<'_> {
    /// Adds that no owner is in together with another one of these places, where none of them all is in anyway.
    fn exclude_others(
        &mut self,
        owners: &[u32],
        places: &[u32],
        exclusion: &mut Exclusion,
    ) -> Result<(), AllocError>
        requires no_owner_in { AreNotIn self.old.play.forced.now owners.now }
        requires none_in { AreNotIn self.old.play.forced.now places.now }
        ensures { OnOk result (Tells (λ play. AreApart owners.now places.now) self.old self.new) }
    {
        let play = self.play;
        list_variables(&play, owners, &mut exclusion.list)?;
        own_all(self.group, &exclusion.list, &mut exclusion.owners)?;
        list_variables(&play, places, &mut exclusion.list)?;
        self.formula.exclude(&exclusion.owners, &exclusion.list)
    }

    /// Adds that no owner is in together with another one of these places. Where one of them all is in anyway, no list is made.
    pub(crate) fn add_all_apart(
        &mut self,
        owners: &[u32],
        places: &[u32],
        exclusion: &mut Exclusion,
    ) -> Result<(), AllocError>
        ensures { OnOk result (Tells (λ play. AreApart owners.now places.now) self.old self.new) }
    {
        let play = self.play;
        if let Some(place) = first_in(&play, owners) {
            self.add_apart_from(place, places)?;
            if !places.contains(&place) {
                return Ok(());
            }
            return self.add_apart_from(place, owners);
        }
        if let Some(place) = first_in(&play, places) {
            return self.add_apart_from(place, owners);
        }
        self.exclude_others(owners, places, exclusion)
    }
}
