//! Cores of a package that no healthy set has: its first core, then the first core of the constraints without the causes so far, as long as no
//! set with the package meets what is left.

ghost use Rattle.std.specs.Prelude.{◌≡◌, ◌<◌, ℕ, All, IfNone, IfOk, IfSome, OnOk, length};
ghost use Rattle.std.specs.Option.{ForSome};
ghost use Rattle.number_sets.specs.Sets.{all_of, members_of};
ghost use Rattle.deb_index.specs.Constraints.{IsOfIndex, constraints_of};
ghost use Rattle.deb_health.specs.Causes.{IsFirstWithout, cause_at, either, is_final, without};
ghost use Rattle.deb_health.specs.Health.{Admits, IsHopeless};
ghost use Rattle.deb_health.specs.Verdicts.{IsTold, SpeaksOf, told_view};
ghost use Rattle.deb_verdict.specs.Formulas.{Tells};

use crate::core_formula::CoreFormula;
use crate::kept_positions::list_constraints;
use crate::known::Known;
use crate::question::Blocking;
use crate::workspace::Workspace;
use core_extract::first_failing;
use deb_groundwork::Groundwork;
use deb_health::{Cores, Told, Wanted};
use deb_index::{Constraint, Index};
use number_sets::SparseSet;
use std::alloc::{AllocError, Global};
use std::mem;

/// Whether a constraint is no need that some package of the index meets. `found` is a buffer.
fn is_final(index: &Index, constraint: Constraint, found: &mut Vec<u32>) -> Result<bool, AllocError>
    requires { IsOfIndex index.now constraint }
    ensures { IfOk result (λ last. last ≡ is_final index.now constraint) }
{
    match constraint {
        Constraint::Need(place, number) => Ok(index.answers(place, number, found)?.is_empty()),
        Constraint::Essential(_) | Constraint::Apart(_, _) | Constraint::Only(_) => Ok(true),
    }
}

/// Takes out the cause that the core at these positions has. `found` is a buffer.
fn take_out(
    index: &Index,
    core: &[u32],
    found: &mut Vec<u32>,
    out: &mut SparseSet,
) -> Result<(), AllocError>
    requires { All (λ k. k < length (constraints_of index.now)) core.now }
    ensures { OnOk result ((k : ℕ) → members_of out.new k ≡ either (members_of out.old) (cause_at index.now core.now) k) }
{
    for position in core {
        if is_final(index, index.constraint_at(*position), found)? {
            out.insert(*position)?;
        }
    }
    Ok(())
}

/// The positions, rising, of the first core of the constraints that are not taken out; `None` where they admit a set with the package at a place.
fn first_positions(
    alloc: Global,
    workspace: &mut Workspace,
    groundwork: &Groundwork<'_>,
    p: u32,
    out: &SparseSet,
    formula: &mut Option<CoreFormula>,
) -> Result<Option<Vec<u32>>, AllocError>
    requires place { p < length groundwork.now.index.now.packages }
    requires formula { ForSome formula.old (Tells groundwork.now.index.now p) }
    ensures formula { ForSome formula.new (Tells groundwork.now.index.now p) }
    ensures first { IfOk result (λ found. IfSome found (λ core. IsFirstWithout groundwork.now.index.now p (members_of out.now) core.items)) }
    ensures within { IfOk result (λ found. IfSome found (λ core. All (λ k. k < length (constraints_of groundwork.now.index.now)) core.items)) }
    ensures none { IfOk result (λ found. IfNone found (Admits groundwork.now.index.now p (without (members_of out.now) all_of))) }
{
    let mut question = Blocking {
        groundwork,
        p,
        out,
        known: Known {
            needed: Vec::new(alloc),
            settled: Vec::new(alloc),
            from: 0,
        },
        asked: 0,
        workspace,
        used: Vec::new(alloc),
        formula: formula.take(),
    };
    let positions = first_failing(alloc, &mut question)?;
    mem::swap(formula, &mut question.formula);
    Ok(positions)
}

/// What is told of a package that no healthy set has: as many of its cores as are wanted, each in the order of the index's list.
pub(crate) fn cores_in(
    alloc: Global,
    workspace: &mut Workspace,
    groundwork: &Groundwork<'_>,
    p: u32,
    wanted: Wanted,
    formula: &mut Option<CoreFormula>,
) -> Result<Told, AllocError>
    requires place { p < length groundwork.now.index.now.packages }
    requires hopeless { IsHopeless groundwork.now.index.now p }
    requires formula { ForSome formula.old (Tells groundwork.now.index.now p) }
    ensures told { IfOk result (λ told. IsTold wanted groundwork.now.index.now p (told_view told)) }
    ensures within { IfOk result (λ told. SpeaksOf groundwork.now.index.now (told_view told)) }
{
    let index = groundwork.index;
    let mut cores = Vec::new(alloc);
    if let Cores::None = wanted.cores {
        return Ok(Told::Broken(cores));
    }
    // (a set is as long as the list of all constraints, so its room is kept for the next package)
    let mut out = SparseSet::new(alloc);
    mem::swap(&mut out, &mut workspace.out);
    out.clear();
    workspace.by_formula = 0;
    workspace.on_nothing = false;
    while let Some(positions) = first_positions(alloc, workspace, groundwork, p, &out, formula)? {
        let mut core = Vec::new(alloc);
        list_constraints(index, &positions, &mut core)?;
        cores.push(core)?;
        if let Cores::First = wanted.cores {
            mem::swap(&mut out, &mut workspace.out);
            return Ok(Told::Broken(cores));
        }
        take_out(index, &positions, &mut workspace.found, &mut out)?;
    }
    mem::swap(&mut out, &mut workspace.out);
    Ok(Told::Broken(cores))
}
