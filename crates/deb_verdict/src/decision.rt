//! The closure and the verdict of a package: whether some set of packages of the index contains it and meets every dependency of a
//! member and no conflict, and what stands in its way (Debian Policy 7.2 to 7.5; dose-debcheck(1)).

ghost use Rattle.std.specs.Prelude.{◌≡◌, ℕ, ◌<◌, IfOk, length};
ghost use Rattle.std.specs.List.Sorted.{IsStrictlyIncreasing};
ghost use Rattle.number_sets.specs.Sets.{members_of};
ghost use Rattle.deb_index.specs.Packages.{IndexView};
ghost use Rattle.deb_verdict.specs.Closure.{IsClosure};
ghost use Rattle.deb_health.specs.Verdicts.{IsTold, IsVerdict, SpeaksOf, told_view, verdict_view};

use crate::all_causes::cores_in;
use crate::first_set::first_set;
use crate::gather::{Candidates, Ground};
use crate::workspace::Workspace;
use deb_groundwork::{Groundwork, is_seen_installable};
use deb_health::{Told, Verdict, Wanted};
use deb_index::Index;
use number_sets::SparseSet;
use std::alloc::{AllocError, Global};

/// The dependency closure of the package at a place: the least set of places that has it, all packages of essential names, and with each
/// member every package that meets an alternative of one of its Pre-Depends or Depends (Debian Policy 7.2); with the qualifier `any` only a
/// package that says `Multi-Arch: allowed` does.
///
/// `p` is a place of the index, counted from 0 and below `index.len()`. The places are rising. The one error is want of memory.
pub fn closure(alloc: Global, index: &Index, p: u32) -> Result<Vec<u32>, AllocError>
    requires { p < length index.now.packages }
    ensures rising { IfOk result (λ members. IsStrictlyIncreasing members.items) }
    ensures least { IfOk result (λ members. IsClosure index.now p (members_of members.items)) }
{
    let nothing = SparseSet::new(alloc);
    let ground = Ground {
        index,
        forced: &nothing,
        met: &[],
    };
    let mut candidates = Candidates::new(alloc);
    candidates.gather(&ground, p)?;
    Vec::from_slice(alloc, candidates.places.as_slice())
}

/// What is told of the package at a place of the index of a groundwork: whether it can be installed, and then as much of its first set or of its
/// cores as is wanted. What is not wanted is not looked for. The first of all cores is the first core; the next is the first core of the constraints
/// without the causes so far, as long as no set with the package meets what is left.
///
/// It is found in the buffers of an earlier answer, of whatever package and index, which change no answer. `p` is below the index's `len()`. The
/// one error is want of memory.
pub fn told_in(
    alloc: Global,
    workspace: &mut Workspace,
    groundwork: &Groundwork<'_>,
    p: u32,
    wanted: Wanted,
) -> Result<Told, AllocError>
    requires { p < length groundwork.now.index.now.packages }
    ensures told { IfOk result (λ told. IsTold wanted groundwork.now.index.now p (told_view told)) }
    ensures within { IfOk result (λ told. SpeaksOf groundwork.now.index.now (told_view told)) }
{
    if groundwork.is_hopeless(p) {
        return cores_in(alloc, workspace, groundwork, p, wanted, &mut None);
    }
    if !wanted.sets && is_seen_installable(groundwork, p, &mut workspace.witness) {
        return Ok(Told::Installable);
    }
    let Some(places) = first_set(alloc, workspace, groundwork, p)? else {
        return cores_in(alloc, workspace, groundwork, p, wanted, &mut None);
    };
    if wanted.sets {
        return Ok(Told::Set(places));
    }
    Ok(Told::Installable)
}

/// The verdict that is told.
fn verdict_of(alloc: Global, told: Told) -> Verdict
    ensures { (index : IndexView) (p : ℕ) → IsVerdict index p (told_view told) → verdict_view result ≡ told_view told }
{
    match told {
        Told::Installable => Verdict::Ok(Vec::new(alloc)),
        Told::Set(places) => Verdict::Ok(places),
        Told::Broken(mut cores) => match cores.pop() {
            Some(core) => Verdict::Broken(core),
            None => Verdict::Broken(Vec::new(alloc)),
        },
    }
}

/// What `verdict` gives, of a place of the index of a groundwork, found in the buffers of an earlier answer.
pub fn verdict_in(
    alloc: Global,
    workspace: &mut Workspace,
    groundwork: &Groundwork<'_>,
    p: u32,
) -> Result<Verdict, AllocError>
    requires { p < length groundwork.now.index.now.packages }
    ensures verdict { IfOk result (λ found. IsVerdict groundwork.now.index.now p (verdict_view found)) }
    ensures within { IfOk result (λ found. SpeaksOf groundwork.now.index.now (verdict_view found)) }
{
    let told = told_in(alloc, workspace, groundwork, p, Wanted::verdict())?;
    Ok(verdict_of(alloc, told))
}

/// What `verdict` gives, found in the buffers of an earlier verdict, of whatever package and index.
fn verdict_by(
    alloc: Global,
    workspace: &mut Workspace,
    index: &Index,
    p: u32,
) -> Result<Verdict, AllocError>
    requires { p < length index.now.packages }
    ensures verdict { IfOk result (λ found. IsVerdict index.now p (verdict_view found)) }
    ensures within { IfOk result (λ found. SpeaksOf index.now (verdict_view found)) }
{
    let groundwork = Groundwork::new(alloc, index)?;
    let found = verdict_in(alloc, workspace, &groundwork, p);
    drop(groundwork);
    found
}

/// The verdict of the package at a place: the first healthy set that contains it, or, where there is none, the first set of constraints that
/// no set with it meets. Of two sets of numbers the first is the one that lacks the least number in which they differ.
///
/// It goes through the whole index first; for many packages of one index, `verdict_in` goes through it once.
/// `p` is a place of the index, counted from 0 and below `index.len()`. The one error is want of memory.
pub fn verdict(alloc: Global, index: &Index, p: u32) -> Result<Verdict, AllocError>
    requires { p < length index.now.packages }
    ensures verdict { IfOk result (λ found. IsVerdict index.now p (verdict_view found)) }
    ensures within { IfOk result (λ found. SpeaksOf index.now (verdict_view found)) }
{
    let mut workspace = Workspace::new(alloc)?;
    let found = verdict_by(alloc, &mut workspace, index, p);
    drop(workspace);
    found
}
