//! The trail: which variables are set, in which order they were, and what their values rest on.

ghost use Rattle.std.specs.Prelude.{◌≡◌, ℕ, true, false, Some, None, ◌<◌, All, [], ◌∷◌, length, slice_index_or, IfOk, IfSome, IfNone};
ghost use Rattle.std.specs.List.Sorted.{IsStrictlyIncreasing};
ghost use Rattle.number_sets.specs.Sets.{members_of};
ghost use Rattle.sat_solve.specs.Trail.{ComesDownTo, value_in, set_of, is_decision, steps_of, IsTrail};
ghost use Rattle.sat_solve.specs.Reasons.{end_before};
ghost use Rattle.sat_solve.specs.Jumps.{denied};

use crate::clause::Lit;
use std::alloc::{AllocError, Global};

/// What a value, or a conflict, rests on.
#[derive(Clone, Copy)]
pub(crate) enum Reason {
    /// On nothing: it was chosen.
    Decision,
    /// On nothing: it stands so in each set that is looked for.
    Given,
    /// On the older values of the variables of the clause of this number.
    Clause(usize),
    /// On the other one of two variables that are not both in, by a clause of this group.
    Pair(u32, u32, u32),
    /// On the older values of the variables of the literals that stand in the arena from one place to another: those of a learnt clause.
    Learnt(usize, usize),
    /// On all older values.
    AllOlder,
}

impl Reason {
    /// Whether this is the reason of a decision.
    pub(crate) fn is_decision(self) -> bool
        ensures { result ≡ is_decision self }
    {
        matches!(self, Reason::Decision)
    }

    /// Where the arena ends without this reason's part, if it ends here with it.
    pub(crate) fn end_before(self, end: usize) -> usize
        ensures { result ≡ end_before self end }
    {
        match self {
            Reason::Learnt(start, _) => start,
            _ => end,
        }
    }
}

/// A variable that was set.
#[derive(Clone, Copy)]
pub(crate) struct Step {
    pub var: u32,
    pub value: bool,
    pub reason: Reason,
}

impl Step {
    /// The literal that fails by this step.
    pub(crate) fn denied(self) -> Lit
        ensures { result ≡ denied self }
    {
        Lit {
            var: self.var,
            positive: !self.value,
        }
    }
}

/// The variables that are set, and the order in which they were.
#[derive(Drop)]
pub(crate) struct Trail {
    pub vars: u32,
    pub values: Vec<Option<bool>>,
    pub steps: Vec<Step>,
}

impl Trail {
    /// No variables.
    pub(crate) fn new(alloc: Global) -> Trail {
        Trail {
            vars: 0,
            values: Vec::new(alloc),
            steps: Vec::new(alloc),
        }
    }

    /// Begins anew, with variables that are free, and makes room to set them all.
    pub(crate) fn restart(&mut self, vars: u32) -> Result<(), AllocError>
        ensures linked { IfOk result (λ _. IsTrail self.new) }
        ensures empty { IfOk result (λ _. (self.new.vars ≡ vars) × (steps_of self.new ≡ [])) }
    {
        self.vars = vars;
        self.values.clear();
        self.values.resize(vars as usize, None)?;
        self.steps.clear();
        self.steps.reserve(vars as usize)
    }

    /// Whether a literal holds, if its variable is set. It is a hint.
    pub(crate) fn truth(&self, literal: Lit) -> Option<bool> {
        match self.values.get(literal.var as usize) {
            Some(Some(value)) => Some(*value == literal.positive),
            _ => None,
        }
    }

    /// How many steps stand before the oldest decision. It is a hint.
    pub(crate) fn first_decision(&self) -> usize {
        let place = self.steps.iter().position(|step| step.reason.is_decision());
        place.unwrap_or(self.steps.len())
    }

    /// The value of a variable, if it is set.
    pub(crate) fn value(&self, var: u32) -> Option<bool>
        requires linked { IsTrail self.now }
        requires in_range { var < self.now.vars }
        ensures { result ≡ value_in (steps_of self.now) var }
    {
        self.values[var as usize]
    }

    /// Whether a variable is in.
    fn is_in(&self, var: u32) -> bool
        requires linked { IsTrail self.now }
        requires in_range { var < self.now.vars }
        ensures { result ≡ set_of (steps_of self.now) var }
    {
        self.value(var) == Some(true)
    }

    /// Lets a literal hold whose variable is free.
    pub(crate) fn push(&mut self, literal: Lit, reason: Reason) -> Result<(), AllocError>
        requires linked { IsTrail self.old }
        requires in_range { literal.var < self.old.vars }
        requires free { value_in (steps_of self.old) literal.var ≡ None }
        ensures linked { IfOk result (λ _. IsTrail self.new) }
        ensures vars { self.new.vars ≡ self.old.vars }
        ensures pushed { IfOk result (λ _. steps_of self.new ≡ record { var = literal.var; value = literal.positive; reason = reason } ∷ steps_of self.old) }
    {
        self.steps.push(Step {
            var: literal.var,
            value: literal.positive,
            reason,
        })?;
        self.values[literal.var as usize] = Some(literal.positive);
        Ok(())
    }

    /// What a clause comes down to, if no literal of it holds so far and at most one is free: that one, or none.
    pub(crate) fn remainder(&self, clause: &[Lit]) -> Option<Option<Lit>>
        requires linked { IsTrail self.now }
        requires in_range { All (λ literal. literal.var < self.now.vars) clause.now }
        ensures { IfSome result (ComesDownTo self.now.vars (steps_of self.now) clause.now) }
    {
        let mut free = None;
        for literal in clause {
            match self.value(literal.var) {
                Some(value) if value == literal.positive => return None,
                Some(_) => {}
                None => {
                    if free.is_some() {
                        return None;
                    }
                    free = Some(*literal);
                }
            }
        }
        Some(free)
    }

    /// Puts down of each variable whether it is in.
    pub(crate) fn copy_to(&self, inside: &mut Vec<bool>) -> Result<(), AllocError>
        requires { IsTrail self.now }
        ensures sized { IfOk result (λ _. length inside.new.items ≡ self.now.vars) }
        ensures same { IfOk result (λ _. (var : ℕ) → slice_index_or inside.new.items var false ≡ set_of (steps_of self.now) var) }
    {
        inside.clear();
        for var in 0..self.vars {
            inside.push(self.is_in(var))?;
        }
        Ok(())
    }

    /// Takes back the newest step, if there is one.
    pub(crate) fn pop(&mut self) -> Option<Step>
        requires { IsTrail self.old }
        ensures linked { IsTrail self.new }
        ensures vars { self.new.vars ≡ self.old.vars }
        ensures popped { IfSome result (λ step. steps_of self.old ≡ step ∷ steps_of self.new) }
        ensures none { IfNone result (steps_of self.old ≡ []) }
    {
        let step = self.steps.pop()?;
        self.values[step.var as usize] = None;
        Some(step)
    }

    /// The variables that are in, rising.
    pub(crate) fn members(&self, alloc: Global) -> Result<Vec<u32>, AllocError>
        requires { IsTrail self.now }
        ensures rising { IfOk result (λ members. IsStrictlyIncreasing members.items) }
        ensures same { IfOk result (λ members. (var : ℕ) → members_of members.items var ≡ set_of (steps_of self.now) var) }
    {
        let mut members = Vec::with_capacity(alloc, self.steps.len())?;
        for var in 0..self.vars {
            if self.is_in(var) {
                members.push(var)?;
            }
        }
        Ok(members)
    }
}
