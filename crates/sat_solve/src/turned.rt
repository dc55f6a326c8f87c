//! A set with one variable turned, and what it meets.

ghost use Rattle.std.specs.Prelude.{◌≡◌, ℕ, ◌≤◌, ◌==◌, ◌||◌, true, false, not, length, IfNone};
ghost use Rattle.std.specs.List.{list_all};
ghost use Rattle.number_sets.specs.Sets.{members_of};
ghost use Rattle.sat_solve.specs.Clauses.{clause_holds, MeetsSpan};
ghost use Rattle.sat_solve.specs.Rotation.{IsClearPart, MeetsBut, turned};

use crate::clause::{Lit, Problem, Span};

/// A set, with one variable turned.
#[derive(Clone, Copy)]
pub(crate) struct Turned<'a> {
    pub inside: &'a [bool],
    pub var: u32,
}

impl<'a> Turned<'a> {
    /// Whether a variable is in.
    pub(crate) fn has(&self, var: u32) -> bool
        ensures { result ≡ turned self.now.inside.now self.now.var var }
    {
        match self.inside.get(var as usize) {
            Some(is_in) => { if var == self.var { !*is_in } else { *is_in } }
            None => false,
        }
    }

    /// Whether a clause holds.
    fn satisfies(&self, clause: &[Lit]) -> bool
        ensures { result ≡ clause_holds (turned self.now.inside.now self.now.var) clause.now }
    {
        clause.iter().any(|literal| {
            if literal.positive {
                self.has(literal.var)
            } else {
                !self.has(literal.var)
            }
        })
    }

    /// Whether these literals have no variable that is in.
    fn has_none(&self, literals: &[Lit]) -> bool
        ensures { result ≡ list_all (λ literal. not (turned self.now.inside.now self.now.var literal.var)) literals.now }
    {
        literals.iter().all(|literal| !self.has(literal.var))
    }

    /// Whether these literals have no variable that is in, but for this one.
    fn has_no_other(&self, literals: &[Lit], var: u32) -> bool
        ensures { result ≡ list_all (λ literal. literal.var == var || not (turned self.now.inside.now self.now.var literal.var)) literals.now }
    {
        literals
            .iter()
            .all(|literal| literal.var == var || !self.has(literal.var))
    }

    /// Whether each clause that a span stands for holds.
    ///
    /// A list with no variable that is in is walked for one of its owners alone: its ends, kept as clear, then tell of the others.
    pub(crate) fn satisfies_span(
        &self,
        literals: &[Lit],
        span: Span,
        clear: &mut (usize, usize),
    ) -> bool
        requires ordered { span.start ≤ span.end }
        requires inside { span.end ≤ length literals.now }
        requires clear { IsClearPart (turned self.now.inside.now self.now.var) literals.now clear.old }
        ensures clear { IsClearPart (turned self.now.inside.now self.now.var) literals.now clear.new }
        ensures met { result ≡ true → MeetsSpan (turned self.now.inside.now self.now.var) literals.now span }
        ensures unmet { result ≡ false → MeetsSpan (turned self.now.inside.now self.now.var) literals.now span → ⊥ }
    {
        let part = &literals[span.start..span.end];
        match span.owner {
            None => self.satisfies(part),
            Some(owner) => {
                if !self.has(owner) {
                    return true;
                }
                if clear.0 == span.start && clear.1 == span.end {
                    return true;
                }
                if self.has_none(part) {
                    *clear = (span.start, span.end);
                    return true;
                }
                self.has_no_other(part, owner)
            }
        }
    }

    /// Whether a span holds, if there is one of this number, and it is kept, and not of a group.
    fn meets(
        &self,
        problem: &Problem,
        number: usize,
        but: usize,
        clear: &mut (usize, usize),
    ) -> bool
        requires clear { IsClearPart (turned self.now.inside.now self.now.var) problem.now.literals.now clear.old }
        ensures clear { IsClearPart (turned self.now.inside.now self.now.var) problem.now.literals.now clear.new }
        ensures met { result ≡ true → MeetsBut problem.now (turned self.now.inside.now self.now.var) but number }
        ensures unmet { result ≡ false → MeetsBut problem.now (turned self.now.inside.now self.now.var) but number → ⊥ }
    {
        if number >= problem.spans.len() {
            return true;
        }
        let span = problem.spans[number];
        if span.group as usize == but || !problem.keep[span.group as usize] {
            return true;
        }
        self.satisfies_span(problem.literals, span, clear)
    }

    /// The first of these spans that doesn't hold, though it is kept, and not of a group.
    pub(crate) fn first_broken(&self, problem: &Problem, numbers: &[u32], but: usize) -> Option<u32>
        ensures { IfNone result ((k : ℕ) → members_of numbers.now k ≡ true → MeetsBut problem.now (turned self.now.inside.now self.now.var) but k) }
    {
        for number in numbers {
            let mut clear = (0, 0);
            if !self.meets(problem, *number as usize, but, &mut clear) {
                return Some(*number);
            }
        }
        None
    }

    /// Whether all spans hold that are kept, and not of a group.
    pub(crate) fn meets_all(&self, problem: &Problem, but: usize) -> bool
        ensures met { result ≡ true → (k : ℕ) → MeetsBut problem.now (turned self.now.inside.now self.now.var) but k }
        ensures unmet { result ≡ false → ((k : ℕ) → MeetsBut problem.now (turned self.now.inside.now self.now.var) but k) → ⊥ }
    {
        let mut clear = (0, 0);
        for number in 0..problem.spans.len() {
            if !self.meets(problem, number, but, &mut clear) {
                return false;
            }
        }
        true
    }
}
