//! The constraints of an index as clauses over the places in play, which hold in just the healthy sets.

ghost use Rattle.std.specs.Prelude.{◌≡◌, ◌<◌, [], All, OnOk, length};
ghost use Rattle.deb_index.specs.Constraints.{Holds, IsOfIndex};
ghost use Rattle.deb_encode.specs.Encoders.{Tells};
ghost use Rattle.number_sets.specs.Sets.{members_of};
ghost use Rattle.deb_verdict.specs.Closure.{IsGathered};
ghost use Rattle.deb_verdict.specs.Formulas.{IsDescription};

use crate::gather::{Candidates, UnmetNeed};
use deb_encode::{Encoder, Gathered, Play};
use deb_groundwork::Groundwork;
use deb_index::Constraint;
use number_sets::SparseSet;
use sat_solve::{Formula, Lit};
use std::alloc::AllocError;

/// Adds what these needs say. `gathered` are buffers.
fn add_needs(
    encoder: &mut Encoder<'_>,
    unmet: &[UnmetNeed],
    gathered: &mut Gathered,
) -> Result<(), AllocError>
    requires { All (λ need. IsOfIndex encoder.old.play.index.now (Constraint.Need need.place need.number)) unmet.now }
    ensures { OnOk result (Tells (λ p set. All
        (λ need. Holds p.index.now set (Constraint.Need need.place need.number)) unmet.now) encoder.old encoder.new) }
{
    for need in unmet {
        encoder.add_need(need.place, need.number, gathered)?;
    }
    Ok(())
}

/// Adds the clauses of all constraints of the essential names and of the places in play, in one group: they hold in just the sets of
/// variables whose places are healthy. `clause` and `gathered` are buffers.
pub(crate) fn describe(
    groundwork: &Groundwork<'_>,
    forced: &SparseSet,
    candidates: &Candidates,
    clause: &mut Vec<Lit>,
    gathered: &mut Gathered,
    formula: &mut Formula,
) -> Result<(), AllocError>
    requires empty { formula.old ≡ record { vars = length candidates.now.places; groups = 1; clauses = [] } }
    requires within { All (λ q. q < length groundwork.now.index.now.packages) forced.now }
    requires gathered { IsGathered groundwork.now.index.now (members_of forced.now) candidates.now }
    ensures { OnOk result (IsDescription groundwork.now.index.now forced.now candidates.now.places formula.new) }
{
    let places = &candidates.places;
    let play = Play::new(groundwork.index, forced, places, &groundwork.alone);
    let mut encoder = Encoder {
        play,
        formula,
        group: 0,
        clause,
    };
    encoder.add_essentials()?;
    add_needs(&mut encoder, &candidates.unmet, gathered)?;
    encoder.add_conflicts(gathered)?;
    encoder.add_versions(gathered)
}
