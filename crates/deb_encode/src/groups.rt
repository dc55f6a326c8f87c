//! Each constraint of a list in a group of its own.

ghost use Rattle.std.specs.Prelude.{◌≡◌, ◌<◌, [], All, OnOk, length};
ghost use Rattle.deb_index.specs.Constraints.{Holds, IsOfIndex};
ghost use Rattle.deb_encode.specs.Encoders.{Tells};
ghost use Rattle.deb_encode.specs.Play.{TellsPlaces};

use crate::encoder::Encoder;
use crate::gathered::Gathered;
use crate::play::Play;
use deb_index::Constraint;
use sat_solve::{Formula, Lit};
use std::alloc::AllocError;

impl Encoder<'_> {
    /// Adds what a constraint says. `gathered` are buffers.
    fn add_constraint(
        &mut self,
        constraint: Constraint,
        gathered: &mut Gathered,
    ) -> Result<(), AllocError>
        requires { IsOfIndex self.old.play.index.now constraint }
        ensures { OnOk result (Tells (λ play set. Holds play.index.now set constraint) self.old self.new) }
    {
        match constraint {
            Constraint::Essential(name) => self.add_essential(name),
            Constraint::Need(place, number) => self.add_need(place, number, gathered),
            Constraint::Apart(place, number) => self.add_apart(place, number, &mut gathered.places),
            Constraint::Only(name) => self.add_only(
                name,
                &mut gathered.places,
                &mut gathered.exclusion,
            ),
        }
    }
}

/// Adds the clauses of each constraint in the group with its number: they hold in just the sets of variables whose places meet it.
///
/// The constraints are of the index of the places in play, and there are as many as the formula has groups. `clause` and `gathered` are buffers.
/// The error is want of memory.
pub fn encode_each(
    play: &Play<'_>,
    constraints: &[Constraint],
    clause: &mut Vec<Lit>,
    gathered: &mut Gathered,
    formula: &mut Formula,
) -> Result<(), AllocError>
    requires empty { formula.old ≡ record { vars = length play.now.candidates.now; groups = length constraints.now; clauses = [] } }
    requires of_index { All (IsOfIndex play.now.index.now) constraints.now }
    ensures vars { OnOk result (formula.new.vars ≡ length play.now.candidates.now) }
    ensures groups { OnOk result (formula.new.groups ≡ length constraints.now) }
    ensures tells { OnOk result (TellsPlaces play.now.index.now play.now.forced.now play.now.candidates.now constraints.now formula.new.clauses) }
{
    for group in 0..formula.groups() {
        let mut encoder = Encoder {
            play: *play,
            formula,
            group,
            clause,
        };
        encoder.add_constraint(constraints[group as usize], gathered)?;
    }
    Ok(())
}
