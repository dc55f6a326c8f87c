//! The state of a solve: deciding, forcing, and going back.

ghost use Rattle.std.specs.Prelude.{◌≡◌, ◌<◌, true, false, All, IfOk};
ghost use Rattle.number_sets.specs.Sets.{NumberSet};
ghost use Rattle.sat_solve.specs.Trail.{is_decided, IsTrail};
ghost use Rattle.sat_solve.specs.Reasons.{IsMarkedSolution, Implied, IsLearnt, IsReasonFor};
ghost use Rattle.sat_solve.specs.Jumps.{IsAt, IsJump};
ghost use Rattle.sat_solve.specs.SolverState.{IsSolver, Gives, UndoesTo, Decides, GoesOn, height};

use crate::clause::{Lit, Problem};
use crate::trail::{Reason, Step, Trail};
use std::alloc::{AllocError, Global};

/// The trail, what was learnt, and how far propagation and deciding came.
#[derive(Drop)]
pub(crate) struct Solver {
    pub trail: Trail,
    /// The learnt clauses that steps rest on, one after another: copies, so that no step wants a clause to stay learnt.
    pub arena: Vec<Lit>,
    /// Clauses that follow from those of the used groups.
    pub learnt: Vec<Vec<Lit>>,
    /// How many literals these have.
    pub size: usize,
    /// A variable below which all are set.
    pub cursor: u32,
    /// How many steps of the trail were propagated.
    pub propagated: usize,
    /// The groups that the refutations so far rest on. One mark a group.
    pub used: Vec<bool>,
}

impl Solver {
    /// A solver of no variables.
    pub(crate) fn new(alloc: Global) -> Solver {
        Solver {
            trail: Trail::new(alloc),
            arena: Vec::new(alloc),
            learnt: Vec::new(alloc),
            size: 0,
            cursor: 0,
            propagated: 0,
            used: Vec::new(alloc),
        }
    }

    /// Begins anew for a problem: only its variable is in.
    pub(crate) fn restart(&mut self, problem: &Problem) -> Result<(), AllocError>
        ensures { IfOk result (λ _. IsSolver problem.now self.new) }
    {
        self.learnt.clear();
        self.size = 0;
        self.trail.restart(problem.vars)?;
        self.arena.clear();
        self.cursor = 0;
        self.propagated = 0;
        self.used.clear();
        self.used.resize(problem.keep.len(), false)?;
        let must = Lit {
            var: problem.must,
            positive: true,
        };
        self.trail.push(must, Reason::Given)
    }

    /// Decides that the least free variable is out. False where none is free.
    pub(crate) fn decide(&mut self, problem: &Problem) -> Result<bool, AllocError>
        requires { IsSolver problem.now self.old }
        ensures { IfOk result (Decides problem.now self.old self.new) }
    {
        for var in self.cursor..problem.vars {
            if self.trail.value(var).is_none() {
                self.cursor = var;
                let out = Lit {
                    var,
                    positive: false,
                };
                self.trail.push(out, Reason::Decision)?;
                return Ok(true);
            }
        }
        Ok(false)
    }

    /// Looks at a clause, if it is kept or learnt: where all its literals fail but one that is free, that one is forced.
    pub(crate) fn examine(
        &mut self,
        problem: &Problem,
        clause: usize,
    ) -> Result<Option<Reason>, AllocError>
        requires solver { IsSolver problem.now self.old }
        ensures { IfOk result (GoesOn problem.now self.old self.new) }
    {
        if clause < problem.spans.len() {
            let span = problem.spans[clause];
            if span.owner.is_some() || !problem.keep[span.group as usize] {
                return Ok(None);
            }
            let literals = &problem.literals[span.start..span.end];
            return self.force(problem, literals, Reason::Clause(clause));
        }
        let Some(learnt) = self.learnt.get(clause - problem.spans.len()) else {
            return Ok(None);
        };
        let Some(left) = self.trail.remainder(learnt) else {
            return Ok(None);
        };
        let reason = reason_of(&mut self.arena, problem, learnt)?;
        let Some(literal) = left else {
            return Ok(Some(reason));
        };
        self.trail.push(literal, reason)?;
        Ok(None)
    }

    /// Looks at the owner of a list and the variable at a place of it: where one is in, the other is forced out, if that is kept.
    pub(crate) fn examine_pair(
        &mut self,
        problem: &Problem,
        span: usize,
        place: usize,
    ) -> Result<Option<Reason>, AllocError>
        requires solver { IsSolver problem.now self.old }
        ensures { IfOk result (GoesOn problem.now self.old self.new) }
    {
        if span >= problem.spans.len() {
            return Ok(None);
        }
        let span = problem.spans[span];
        if place < span.start || span.end <= place || !problem.keep[span.group as usize] {
            return Ok(None);
        }
        let other = problem.literals[place].var;
        match span.owner {
            Some(owner) if owner != other => {
                let pair = [Lit::out(owner), Lit::out(other)];
                self.force(problem, &pair, Reason::Pair(span.group, owner, other))
            }
            _ => Ok(None),
        }
    }

    /// Looks at a clause that a reason brings in: where all its literals fail but one that is free, that one is forced.
    fn force(
        &mut self,
        problem: &Problem,
        clause: &[Lit],
        reason: Reason,
    ) -> Result<Option<Reason>, AllocError>
        requires solver { IsSolver problem.now self.old }
        requires in_range { All (λ literal. literal.var < problem.now.vars) clause.now }
        requires gives { Gives problem.now self.old reason clause.now }
        ensures { IfOk result (GoesOn problem.now self.old self.new) }
    {
        match self.trail.remainder(clause) {
            None => Ok(None),
            Some(None) => Ok(Some(reason)),
            Some(Some(literal)) => {
                self.trail.push(literal, reason)?;
                Ok(None)
            }
        }
    }

    /// Takes back the steps down to the decision at a place, and that one too, with what they kept in the arena.
    fn undo_to(&mut self, place: usize)
        requires { IsTrail self.old.trail }
        ensures used { self.new.used ≡ self.old.used }
        ensures undone { (decision : Step) → IsAt self.old.trail.steps.items place decision → is_decided decision ≡ true
            → UndoesTo place self.old self.new }
    {
        'steps: while self.trail.steps.len() > place {
            let Some(step) = self.trail.pop() else {
                return;
            };
            let end = step.reason.end_before(self.arena.len());
            self.arena.truncate(end);
            self.cursor = self.cursor.min(step.var);
            self.propagated = self.propagated.min(self.trail.steps.len());
        }
    }

    /// Takes in a learnt clause. Where there is no room, the older ones are dropped first, and the answer is true.
    pub(crate) fn learn(&mut self, problem: &Problem, clause: Vec<Lit>) -> Result<bool, AllocError>
        ensures trail { self.new.trail ≡ self.old.trail }
        ensures used { self.new.used ≡ self.old.used }
        ensures keeps { IfOk result (λ _. IsSolver problem.now self.old → IsLearnt problem.now self.old.used.items clause
            → IsSolver problem.now self.new) }
    {
        let is_full = self.size > room(problem);
        if is_full {
            self.learnt.clear();
            self.size = 0;
        }
        self.size = self.size.saturating_add(clause.len());
        self.learnt.push(clause)?;
        Ok(is_full)
    }

    /// Goes back to where a learnt clause has one free literal, and sets that. False if the clause has none.
    pub(crate) fn backjump(
        &mut self,
        problem: &Problem,
        clause: &[Lit],
        place: usize,
    ) -> Result<bool, AllocError>
        requires solver { IsSolver problem.now self.old }
        requires ranged { All (λ literal. literal.var < problem.now.vars) clause.now }
        requires implied { Implied problem.now self.old.used.items clause.now }
        requires jump { IsJump self.old.trail.steps.items 0 place clause.now }
        ensures solver { IfOk result (λ _. IsSolver problem.now self.new) }
        ensures turned { IfOk result (λ found. found ≡ true → height problem.now self.old < height problem.now self.new) }
        ensures used { self.new.used ≡ self.old.used }
        ensures none { IfOk result (λ found. found ≡ false → (set : NumberSet) → IsMarkedSolution problem.now self.old.used.items set → ⊥) }
    {
        let Some((first, _others)) = clause.split_first() else {
            return Ok(false);
        };
        self.undo_to(place);
        let reason = reason_of(&mut self.arena, problem, clause)?;
        self.trail.push(*first, reason)?;
        Ok(true)
    }
}

/// How many learnt literals there is room for: twice those of the formula, and half a megabyte.
fn room(problem: &Problem) -> usize {
    problem
        .literals
        .len()
        .saturating_mul(2)
        .saturating_add(65_536)
}

/// Puts a clause into the arena while there is room, as a reason.
fn reason_of(arena: &mut Vec<Lit>, problem: &Problem, clause: &[Lit]) -> Result<Reason, AllocError>
    ensures { IfOk result (IsReasonFor clause.now arena.old.items arena.new.items) }
{
    let start = arena.len();
    if clause.len() > room(problem).saturating_sub(start) {
        return Ok(Reason::AllOlder);
    }
    arena.extend_from_slice(clause)?;
    Ok(Reason::Learnt(start, arena.len()))
}
