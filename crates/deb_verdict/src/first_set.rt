//! The first healthy set that contains a package.

ghost use Rattle.std.specs.Prelude.{◌≡◌, ℕ, ◌<◌, All, IfOk, IfSome, IfNone, length};
ghost use Rattle.std.specs.List.Sorted.{IsStrictlyIncreasing};
ghost use Rattle.number_sets.specs.Sets.{members_of};
ghost use Rattle.deb_health.specs.Health.{IsHopeless};
ghost use Rattle.deb_encode.specs.Play.{placed};
ghost use Rattle.deb_health.specs.Verdicts.{IsFirstInstallation};

use crate::describe::describe;
use crate::gather::Ground;
use crate::workspace::Workspace;
use deb_groundwork::Groundwork;
use deb_index::Index;
use number_sets::sort_once;
use std::alloc::{AllocError, Global};

/// How many places these are, all of the index.
pub(crate) fn count_of(index: &Index, places: &[u32]) -> u32
    requires within { All (λ q. q < length index.now.packages) places.now }
    requires rising { IsStrictlyIncreasing places.now }
    ensures { result ≡ length places.now }
{
    let count = places.len();
    let packages = index.len();
    prove!(count <= packages as usize);
    count as u32
}

/// The places, rising, of the forced ones and the candidates with these numbers.
fn list_set(
    alloc: Global,
    forced: &[u32],
    candidates: &[u32],
    vars: &[u32],
) -> Result<Vec<u32>, AllocError>
    requires { All (λ var. var < length candidates.now) vars.now }
    ensures rising { IfOk result (λ places. IsStrictlyIncreasing places.items) }
    ensures placed { IfOk result (λ places. (q : ℕ) → members_of places.items q ≡ placed forced.now candidates.now (members_of vars.now) q) }
{
    let mut places = Vec::from_slice(alloc, forced)?;
    for var in vars {
        places.push(candidates[*var as usize])?;
    }
    sort_once(&mut places);
    Ok(places)
}

/// The places, rising, of the first healthy set that contains the package at a place; `None` where there is none.
pub(crate) fn first_set(
    alloc: Global,
    workspace: &mut Workspace,
    groundwork: &Groundwork<'_>,
    p: u32,
) -> Result<Option<Vec<u32>>, AllocError>
    requires { p < length groundwork.now.index.now.packages }
    ensures first { IfOk result (λ found. IfSome found (λ places. IsFirstInstallation groundwork.now.index.now p places.items)) }
    ensures within { IfOk result (λ found. IfSome found (λ places. All (λ place. place < length groundwork.now.index.now.packages) places.items)) }
    ensures none { IfOk result (λ found. IfNone found (IsHopeless groundwork.now.index.now p)) }
{
    groundwork.force(p, &mut workspace.forced)?;
    let ground = Ground {
        index: groundwork.index,
        forced: &workspace.forced,
        met: &groundwork.met,
    };
    workspace.candidates.gather(&ground, p)?;
    let count = count_of(groundwork.index, workspace.candidates.places.as_slice());
    workspace.formula.restart(count, 1);
    describe(
        groundwork,
        &workspace.forced,
        &workspace.candidates,
        &mut workspace.clause,
        &mut workspace.gathered,
        &mut workspace.formula,
    )?;
    let must = workspace.candidates.places.position_of(p).unwrap();
    let found = workspace
        .formula
        .solve_in(alloc, &mut workspace.solver, &[true], must as u32)?;
    match found {
        Some(vars) => {
            let places = list_set(
                alloc,
                workspace.forced.as_slice(),
                workspace.candidates.places.as_slice(),
                &vars,
            )?;
            Ok(Some(places))
        }
        None => Ok(None),
    }
}
