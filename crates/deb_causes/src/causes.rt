//! The causes of broken packages.

ghost use Rattle.std.specs.Prelude.{◌≡◌, ◌<◌, ◌≤◌, ℕ, [], All, IfOk, OnOk, count_by, length, map};
ghost use Rattle.deb_index.specs.Constraints.{IsOfIndex};
ghost use Rattle.deb_causes.specs.Causes.{IsCauseOf, by_count, by_first, cause_view, causes_list, cores_of};
ghost use Rattle.deb_causes.specs.Gathering.{cause_from, part_view};
ghost use Rattle.deb_causes.specs.Wrongs.{causes_of, said_of};
ghost use Rattle.deb_health.specs.Verdicts.{IsAskedOf, shown_view};

use crate::cause_of_core::{needs_in, versions_in, wrongs_in};
use crate::gathered::{Cause, Part, number_packages, parts_of};
use crate::wrongs::Wrongs;
use deb_health::Shown;
use deb_index::Index;
use std::alloc::{AllocError, Global};

/// The places of packages.
fn places_of(alloc: Global, shares: &[(u32, bool)]) -> Result<Vec<u32>, AllocError>
    ensures { IfOk result (λ places. places.items ≡ map (λ share. share.0) shares.now) }
{
    shares.iter().map(|share| share.0).collect(alloc)
}

/// How many of the packages have no other cause.
fn count_alone(shares: &[(u32, bool)]) -> usize
    ensures { result ≡ count_by (λ share. share.1) shares.now }
{
    shares.iter().filter(|share| share.1).count()
}

/// The cause that some cores have, with what is told of them and of the packages.
fn cause_of(alloc: Global, index: &Index, part: &Part) -> Result<Cause, AllocError>
    requires some { 0 < length part.now.cores.items }
    requires within { All (λ core. All (IsOfIndex index.now) core.now) part.now.cores.items }
    ensures { IfOk result (λ cause. cause_view cause ≡ cause_from index.now (part_view part.now)) }
{
    let cores = part.cores.as_slice();
    let shares = part.shares.as_slice();
    Ok(Cause {
        constraints: wrongs_in(alloc, index, cores[0])?,
        places: places_of(alloc, shares)?,
        frees: count_alone(shares),
        needs: needs_in(alloc, index, cores)?,
        versions: versions_in(alloc, index, cores)?,
    })
}

/// The causes of all parts.
fn list_causes(alloc: Global, index: &Index, parts: &[Part]) -> Result<Vec<Cause>, AllocError>
    requires some { All (λ part. 0 < length part.cores.items) parts.now }
    requires within { All (λ part. All (λ core. All (IsOfIndex index.now) core.now) part.cores.items) parts.now }
    ensures { IfOk result (λ causes. map cause_view causes.items ≡ map (cause_from index.now) (map part_view parts.now)) }
{
    let mut causes = Vec::new(alloc);
    for part in parts {
        causes.push(cause_of(alloc, index, part)?)?;
    }
    Ok(causes)
}

/// The causes of broken packages, in the order of their first packages, where nothing is numbered so far.
fn first_causes(
    alloc: Global,
    index: &Index,
    broken: &[Shown<'_>],
    wrongs: &mut Wrongs,
) -> Result<Vec<Cause>, AllocError>
    requires asked { All (λ one. IsAskedOf index.now (shown_view one)) broken.now }
    requires said { said_of wrongs.old ≡ [] }
    requires causes { causes_of wrongs.old ≡ [] }
    ensures { IfOk result (λ causes. map cause_view causes.items ≡ by_first index.now (map cores_of (map shown_view broken.now))) }
{
    let packages = number_packages(alloc, index, broken, wrongs)?;
    let parts = parts_of(alloc, wrongs.count(), packages.as_slice())?;
    list_causes(alloc, index, parts.as_slice())
}

/// Brings causes of more packages to the front.
fn sort_by_count(causes: &mut Vec<Cause>) -> Result<(), AllocError>
    ensures { OnOk result ((most : ℕ) → All (λ cause. length cause.places.items ≤ most) causes.old.items
        → map cause_view causes.new.items ≡ by_count most (map cause_view causes.old.items)) }
{
    causes.sort_by(|a, b| b.places.len().cmp(&a.places.len()))?;
    Ok(())
}

/// The causes of broken packages, each with what is gathered of it: those of more packages first, among equals those whose first package is
/// first in the list.
///
/// The packages and what is told of them speak of what the index has. `AllocError` where there is no memory for it.
pub fn causes_of(
    alloc: Global,
    index: &Index,
    broken: &[Shown<'_>],
) -> Result<Vec<Cause>, AllocError>
    requires { All (λ one. IsAskedOf index.now (shown_view one)) broken.now }
    ensures causes { IfOk result (λ causes. map cause_view causes.items ≡ causes_list index.now (map shown_view broken.now)) }
    ensures within { IfOk result (λ causes. All (λ cause. IsCauseOf index.now (cause_view cause)) causes.items) }
{
    let mut wrongs = Wrongs::new(alloc);
    let found = first_causes(alloc, index, broken, &mut wrongs);
    drop(wrongs);
    let mut causes = found?;
    sort_by_count(&mut causes)?;
    Ok(causes)
}
