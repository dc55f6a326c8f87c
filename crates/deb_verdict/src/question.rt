//! The question whether a part of the constraints admits no set with a package.

ghost use Rattle.std.specs.Prelude.{◌≡◌, ℕ, ◌<◌, true, false, IfOk, length};
ghost use Rattle.std.specs.Option.{ForSome};
ghost use Rattle.std.specs.List.Sorted.{IsStrictlyIncreasing};
ghost use Rattle.number_sets.specs.Sets.{all_of, members_of};
ghost use Rattle.deb_health.specs.Causes.{without};
ghost use Rattle.deb_health.specs.Health.{Admits, AdmitsNone};
ghost use Rattle.deb_groundwork.specs.Parts.{positions_in, IsRefutedBy};
ghost use Rattle.deb_verdict.specs.Formulas.{Tells, AreKnown};

use crate::by_formula::{learn, refute_by_formula, tells_more};
use crate::core_formula::CoreFormula;
use crate::known::Known;
use crate::limits::{IN_A_ROW, MANY};
use crate::workspace::Workspace;
use core_extract::{Question, next_of};
use deb_groundwork::{Groundwork, Part, is_seen_to_admit, refute_by_forcing};
use number_sets::{SparseSet, sort_once};
use std::alloc::{AllocError, Global};
use std::mem;

/// Whether a set with the package at a place is seen to meet a part of the constraints, on the base set or on nothing. Questions that keep no
/// constraint yet and leave some out have a witness of their own, on what the last set for the package stood on.
fn is_seen_on(
    part: &Part<'_>,
    p: u32,
    groundwork: &Groundwork<'_>,
    on_nothing: bool,
    workspace: &mut Workspace,
) -> bool
    requires place { p < length part.now.index.now.packages }
    requires index { groundwork.now.index.now ≡ part.now.index.now }
    ensures { result ≡ true → Admits part.now.index.now p (positions_in part.now) }
{
    let lacking = &groundwork.lacking;
    let base = &groundwork.base;
    let is_own = part.kept.is_empty() && part.rest > 0 && on_nothing == workspace.on_nothing;
    let own = &mut workspace.first_witness;
    let witness = &mut workspace.witness;
    let nothing = &mut workspace.nothing;
    nothing.clear();
    match (on_nothing, is_own) {
        (false, false) => is_seen_to_admit(part, p, base, lacking, witness),
        (false, true) => is_seen_to_admit(part, p, base, lacking, own),
        (true, false) => is_seen_to_admit(part, p, nothing, lacking, witness),
        (true, true) => is_seen_to_admit(part, p, nothing, lacking, own),
    }
}

/// Whether a part of the constraints admits no set with the package at a place. Where it admits none, the workspace's `used` then has the
/// positions of constraints of the part that already do.
fn refute_part(
    alloc: Global,
    part: &Part<'_>,
    p: u32,
    groundwork: &Groundwork<'_>,
    formula: &mut Option<CoreFormula>,
    workspace: &mut Workspace,
) -> Result<bool, AllocError>
    requires place { p < length part.now.index.now.packages }
    requires index { groundwork.now.index.now ≡ part.now.index.now }
    requires formula { ForSome formula.old (Tells part.now.index.now p) }
    ensures formula { ForSome formula.new (Tells part.now.index.now p) }
    ensures refuted { IfOk result (λ refuted. refuted ≡ true → IsRefutedBy workspace.new.used.items part.now p) }
    ensures admitted { IfOk result (λ refuted. refuted ≡ false → AdmitsNone part.now.index.now p (positions_in part.now) → ⊥) }
{
    workspace.set.clear();
    if workspace.alone {
        return refute_by_formula(alloc, part, p, formula, workspace);
    }
    let base = &groundwork.base;
    // What the package asks for may be at odds with the base set. What its last set stood on goes first, but where all are asked about but those of
    // earlier causes: there forcing goes on from where it was.
    let on_nothing = workspace.on_nothing;
    let goes_on = part.rest == 0;
    if !goes_on && is_seen_on(part, p, groundwork, on_nothing, workspace) {
        return Ok(false);
    }
    let propagation = &mut workspace.propagation;
    if refute_by_forcing(part, p, base, propagation, &mut workspace.used) {
        workspace.by_formula = 0;
        return Ok(true);
    }
    // Each package whose core is looked for is broken, so only without some constraints is there a set.
    let may_admit = part.may_lack_one();
    if goes_on && may_admit && is_seen_on(part, p, groundwork, on_nothing, workspace) {
        return Ok(false);
    }
    if may_admit && is_seen_on(part, p, groundwork, !on_nothing, workspace) {
        workspace.on_nothing = !on_nothing;
        return Ok(false);
    }
    // Only what came against the base set may come against what its members need.
    workspace.nothing.clear();
    let nothing = &workspace.nothing;
    let propagation = &mut workspace.propagation;
    if propagation.lacks_room(part.index, base)
        && refute_by_forcing(part, p, nothing, propagation, &mut workspace.used)
    {
        return Ok(true);
    }
    if goes_on {
        workspace.by_formula = workspace.by_formula.saturating_add(1);
    }
    refute_by_formula(alloc, part, p, formula, workspace)
}

/// Whether a question is put to the formula alone, where so many were asked before.
fn is_for_formula(formula: &Option<CoreFormula>, used: &[u32], asked: u32) -> bool {
    asked >= MANY && tells_more(formula, used)
}

/// The number before the rest, if the last refutation used it as the first behind the kept ones, and the formula may tell of more. It is a hint.
fn next_told(formula: &Option<CoreFormula>, used: &[u32], kept: &[u32], rest: u32) -> Option<u32>
    requires { IsStrictlyIncreasing used.now }
{
    let last = rest.checked_sub(1)?;
    let behind = kept.last().map_or(0, |number| number.saturating_add(1));
    if next_of(used, behind) == Some(last) && tells_more(formula, used) {
        Some(last)
    } else {
        None
    }
}

/// Takes over what a refutation used, in rising order. `found` is then a buffer.
fn take_rising(found: &mut Vec<u32>, used: &mut Vec<u32>)
    ensures rising { IsStrictlyIncreasing used.new.items }
    ensures same { (number : ℕ) → members_of used.new.items number ≡ members_of found.old.items number }
{
    mem::swap(found, used);
    sort_once(used);
}

/// Whether positions of the index's list of constraints, without those that are taken out, admit no set with the package at a place.
#[derive(Drop)]
pub(crate) struct Blocking<'a> {
    pub(crate) groundwork: &'a Groundwork<'a>,
    pub(crate) p: u32,
    pub(crate) out: &'a SparseSet,
    /// What is known to be needed.
    pub(crate) known: Known,
    /// How many questions were asked.
    pub(crate) asked: u32,
    pub(crate) workspace: &'a mut Workspace,
    /// The positions of the constraints that the last refutation used, rising.
    pub(crate) used: Vec<u32>,
    /// The package's formula, once a question needed it.
    pub(crate) formula: Option<CoreFormula>,
    ghost place: { p < length groundwork.now.index.now.packages },
    ghost is_known: { AreKnown groundwork.now.index.now p (members_of out.now) known },
    ghost used_rising: { IsStrictlyIncreasing used.items },
    ghost told: { ForSome formula (Tells groundwork.now.index.now p) },
}

impl<'a> Question for Blocking<'a> {
    ghost use Rattle.std.specs.Prelude.{◌≡◌, refl};
    ghost use Rattle.std.proofs.Common.{◌∙◌};
    ghost use Rattle.number_sets.specs.Sets.{members_of};
    ghost use Rattle.deb_health.proofs.CoreLemmas.{without_upward};
    ghost use Rattle.deb_health.specs.Health.{AdmitsNone};
    ghost use Rattle.core_extract.specs.Reduction.{listed};

    ghost is_failing = { λ q set. AdmitsNone q.groundwork.now.index.now q.p (without (members_of q.out.now) set) };

    ghost used = { λ q. listed q.used.items };

    ghost keeps = { λ before after. (after.groundwork.now.index.now ≡ before.groundwork.now.index.now) × (after.p ≡ before.p) };

    ghost upward = { λ q. without_upward q.groundwork.now.index.now q.p (members_of q.out.now) };

    ghost keeps_itself = { λ q. (refl, refl) };

    ghost keeps_further = { λ first next last same also. (also.0 ∙ same.0, also.1 ∙ same.1) };

    fn refute(&mut self, alloc: Global, kept: &[u32], rest: u32) -> Result<bool, AllocError> {
        let index = self.groundwork.index;
        let _limit = index.len();
        let mut part = Part {
            index,
            kept,
            rest,
            out: Some(self.out),
        };
        self.workspace.alone = is_for_formula(&self.formula, &self.used, self.asked)
            || rest == 0 && self.workspace.by_formula >= IN_A_ROW;
        let refuted = refute_part(
            alloc,
            &part,
            self.p,
            self.groundwork,
            &mut self.formula,
            self.workspace,
        )?;
        self.asked = self.asked.saturating_add(1);
        if !refuted {
            let Some(last) = next_told(&self.formula, &self.used, kept, rest) else {
                return Ok(false);
            };
            part.rest = last;
            learn(
                alloc,
                &part,
                self.p,
                &self.formula,
                &mut self.known,
                self.workspace,
            )?;
            return Ok(false);
        }
        take_rising(&mut self.workspace.used, &mut self.used);
        Ok(true)
    }

    fn next_used(&self, from: u32) -> Option<u32> {
        next_of(&self.used, from)
    }

    fn is_needed(&self, kept: &[u32], number: u32) -> bool {
        self.known.has(kept, number)
    }
}
