//! The asked places that are shown, with what is told of them.

ghost use Rattle.std.specs.Prelude.{◌≡◌, IfOk, length, map};
ghost use Rattle.deb_health.specs.Verdicts.{told_view, shown_view};
ghost use Rattle.deb_report.specs.Outcome.{is_broken, is_shown, shown_of, status_of};

use deb_health::{Shown, Told};
use run_settings::Show;
use std::alloc::{AllocError, Global};

/// Whether the package cannot be installed.
fn is_broken(told: &Told) -> bool
    ensures { result ≡ is_broken (told_view told.now) }
{
    match told {
        Told::Installable | Told::Set(_) => false,
        Told::Broken(_) => true,
    }
}

/// Whether a package of which this is told is shown.
fn is_shown(show: Show, told: &Told) -> bool
    ensures { result ≡ is_shown show (told_view told.now) }
{
    match show {
        Show::All => true,
        Show::Failures => is_broken(told),
        Show::Successes => !is_broken(told),
    }
}

/// The status of a package, as a report has it: `ok` or `broken`.
#[tactic(auto, unfolding(crate::specs::Outcome::status_of))]
pub fn status_text(told: &Told) -> &'static [u8]
    ensures { result.now ≡ status_of (told_view told.now) }
{
    match told {
        Told::Installable | Told::Set(_) => b"ok",
        Told::Broken(_) => b"broken",
    }
}

/// The asked places that are shown, in the order of the list, with what is told of them.
///
/// As much is told as there are places. `AllocError` where there is no memory for it.
pub fn shown_of<'t>(
    alloc: Global,
    asked: &[u32],
    told: &'t [Told],
    show: Show,
) -> Result<Vec<Shown<'t>>, AllocError>
    requires { length asked.now ≡ length told.now }
    ensures { IfOk result (λ shown. map shown_view shown.items ≡ shown_of show asked.now (map told_view told.now)) }
{
    let mut shown = Vec::new(alloc);
    for (i, place) in asked.iter().enumerate() {
        let one = &told[i];
        if is_shown(show, one) {
            shown.push(Shown {
                place: *place,
                told: one,
            })?;
        }
    }
    Ok(shown)
}

/// The places of asked packages.
pub(crate) fn places_of(alloc: Global, shown: &[Shown<'_>]) -> Result<Vec<u32>, AllocError>
    ensures { IfOk result (λ places. places.items ≡ map (λ one. one.0) (map shown_view shown.now)) }
{
    shown.iter().map(|one| one.place).collect(alloc)
}
