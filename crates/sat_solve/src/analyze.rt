//! Conflict analysis: from a conflict back over the trail to the clause that it teaches.
//!
//! The clause has one literal of the newest level that the conflict rests on, that of the first unique implication point (J. Marques-Silva
//! and K. Sakallah, "GRASP: a search algorithm for propositional satisfiability", 1999), and else what older levels say.

ghost use Rattle.std.specs.Prelude.{◌≡◌, ℕ, ◌<◌, true, false, Some, [], length, slice_get, slice_index_or, IfOk};
ghost use Rattle.number_sets.specs.Sets.{NumberSet};
ghost use Rattle.sat_solve.specs.Clauses.{AreWithin};
ghost use Rattle.sat_solve.specs.Reasons.{IsMarkedSolution, IsUsed, Backs, IsLearnt, named_by, is_seen, variables_of, SeesAll};
ghost use Rattle.sat_solve.specs.Jumps.{IsJump, IsTaken};
ghost use Rattle.sat_solve.specs.SolverState.{IsSolver, IsConflict};

use crate::clause::{Lit, Problem, mark};
use crate::solver::Solver;
use crate::trail::{Reason, Trail};
use std::alloc::{AllocError, Global};

/// What one conflict rests on.
#[derive(Drop)]
pub(crate) struct Analysis {
    /// The variables that the conflict rests on, as far as they were found: those marked here, and all that have no mark here.
    seen: Vec<bool>,
    /// The clause that is learnt, each of its literals denied by a step, the newest first.
    pub clause: Vec<Lit>,
    /// The place of a decision on the trail. Without it and what is newer all literals fail but the first, which is free.
    pub target: usize,
}

/// Sees the variables of literals.
fn see_literals(seen: &mut Vec<bool>, literals: &[Lit])
    ensures { SeesAll (variables_of literals.now) seen.old.items seen.new.items }
{
    for literal in literals {
        mark(seen, literal.var);
    }
}

/// Marks a group, if it is kept.
fn use_group(problem: &Problem, used: &mut Vec<bool>, group: u32)
    requires { IsUsed problem.now used.old.items }
    ensures used { IsUsed problem.now used.new.items }
    ensures within { AreWithin used.old.items used.new.items }
    ensures marked { slice_index_or problem.now.keep.now group false ≡ true → slice_get used.new.items group ≡ Some true }
{
    let group = group as usize;
    if group < problem.keep.len() && problem.keep[group] {
        used[group] = true;
    }
}

/// Sees the variables that a reason names, and marks the groups that it brings in. Without marks all variables are seen.
fn rest_on(
    problem: &Problem,
    arena: &[Lit],
    reason: Reason,
    seen: &mut Vec<bool>,
    used: &mut Vec<bool>,
) -> Result<(), AllocError>
    requires used { IsUsed problem.now used.old.items }
    ensures seen { IfOk result (λ _. SeesAll (named_by problem.now arena.now reason) seen.old.items seen.new.items) }
    ensures used { IfOk result (λ _. IsUsed problem.now used.new.items) }
    ensures backs { IfOk result (λ _. (set : NumberSet) → IsMarkedSolution problem.now used.new.items set → Backs problem.now used.old.items reason set) }
{
    match reason {
        Reason::Decision | Reason::Given => Ok(()),
        Reason::Clause(clause) => {
            if clause < problem.spans.len() {
                let span = problem.spans[clause];
                see_literals(seen, &problem.literals[span.start..span.end]);
                use_group(problem, used, span.group);
            } else {
                seen.clear();
            }
            Ok(())
        }
        Reason::Pair(group, owner, other) => {
            see_literals(seen, &[Lit::out(owner), Lit::out(other)]);
            use_group(problem, used, group);
            Ok(())
        }
        Reason::Learnt(start, end) => {
            if start <= end && end <= arena.len() {
                see_literals(seen, &arena[start..end]);
            } else {
                seen.clear();
            }
            Ok(())
        }
        Reason::AllOlder => {
            seen.clear();
            used.clear();
            used.extend_from_slice(problem.keep)
        }
    }
}

impl Analysis {
    /// An analysis of no conflict.
    pub(crate) fn new(alloc: Global) -> Analysis {
        Analysis {
            seen: Vec::new(alloc),
            clause: Vec::new(alloc),
            target: 0,
        }
    }

    /// Whether a variable is seen.
    fn has(&self, var: u32) -> bool
        ensures { result ≡ is_seen self.now.seen.items var }
    {
        self.seen.get(var as usize).copied().unwrap_or(true)
    }

    /// Where the level of the seen step at a place begins, twice, if no older step of it is seen.
    ///
    /// `low` is the place of an older seen step of the level, as far as one was found.
    fn level_start(&self, trail: &Trail, place: usize, low: &mut usize) -> Option<(usize, usize)>
        requires { place < length trail.now.steps.items }
        ensures { (target : ℕ) → IsTaken trail.now.steps.items self.now.seen.items [] target place result }
    {
        if trail.steps[place].reason.is_decision() {
            return Some((place, place));
        }
        if *low < place {
            return None;
        }
        let mut start = place;
        while start > 0 {
            start -= 1;
            let step = trail.steps[start];
            if self.has(step.var) {
                *low = start;
                return None;
            }
            if step.reason.is_decision() {
                return Some((start, start));
            }
        }
        None
    }

    /// Where to look on and to jump, if the clause is to take the literal of the seen step at a place.
    ///
    /// It takes one of the newest level, and of the older ones all but those of steps that rest on no decision.
    fn kept(
        &self,
        trail: &Trail,
        place: usize,
        first: usize,
        low: &mut usize,
    ) -> Option<(usize, usize)>
        requires { place < length trail.now.steps.items }
        ensures { IsTaken trail.now.steps.items self.now.seen.items self.now.clause.items self.now.target place result }
    {
        if self.clause.is_empty() {
            return self.level_start(trail, place, low);
        }
        if place >= first || trail.steps[place].reason.is_decision() {
            return Some((place, self.target));
        }
        None
    }

    /// Finds the clause that a conflict teaches, and marks the groups that it follows from.
    pub(crate) fn analyze(
        &mut self,
        problem: &Problem,
        solver: &mut Solver,
        conflict: Reason,
    ) -> Result<(), AllocError>
        requires solver { IsSolver problem.now solver.old }
        requires conflict { IsConflict problem.now solver.old conflict }
        ensures solver { IfOk result (λ _. IsSolver problem.now solver.new) }
        ensures trail { solver.new.trail ≡ solver.old.trail }
        ensures learnt { IfOk result (λ _. IsLearnt problem.now solver.new.used.items self.new.clause) }
        ensures jump { IfOk result (λ _. IsJump solver.new.trail.steps.items 0 self.new.target self.new.clause.items) }
    {
        let trail = &solver.trail;
        let arena = solver.arena.as_slice();
        let used = &mut solver.used;
        self.seen.clear();
        self.seen.resize(problem.vars as usize, false)?;
        self.clause.clear();
        rest_on(problem, arena, conflict, &mut self.seen, used)?;
        let first = trail.first_decision();
        let mut left = trail.steps.len();
        // Where there is no decision, no step is kept.
        let mut low = if first < left { left } else { 0 };
        while left > 0 {
            left -= 1;
            let step = trail.steps[left];
            if self.has(step.var) {
                if let Some((start, target)) = self.kept(trail, left, first, &mut low) {
                    self.target = target;
                    self.clause.push(step.denied())?;
                    left = start;
                } else {
                    rest_on(problem, arena, step.reason, &mut self.seen, used)?;
                }
            } else if self.clause.len() == 1 && step.reason.is_decision() {
                // While the clause has one literal, the jump goes past decisions.
                self.target = left;
            }
        }
        Ok(())
    }
}
