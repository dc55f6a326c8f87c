//! Model rotation (A. Belov and J. Marques-Silva, "Accelerating MUS extraction with recursive model rotation", 2011): from a set that breaks
//! one group alone to others that do, by turning one variable after the other.
//!
//! Each group that a set breaks alone is needed: without its clauses there is a set. How the sets are come by is claimed by nothing. What a
//! set breaks is looked up among the clauses that speak of the turned variable, and those of the group that the set before it broke.

ghost use Rattle.std.specs.Prelude.{◌≡◌, ℕ, ◌<◌, true, length, IfOk, OnOk};
ghost use Rattle.sat_solve.specs.Rotation.{BreaksAlone, IsListed, MarksNeeded};

use crate::clause::{Problem, mark};
use crate::occurrences::{list_spans, listed_by};
use crate::turned::Turned;
use std::alloc::{AllocError, Global};

/// How many numbers are listed at most. Beyond it, nothing is turned.
const LISTED: usize = 4_000_000;

/// What is yet to be turned, and on the way back which group is then broken alone.
#[derive(Clone, Copy)]
struct Turn {
    var: u32,
    back: Option<u32>,
}

/// The buffers of `Formula::mark_needed`.
#[derive(Drop)]
pub struct Rotation {
    /// The spans that speak of each variable, and behind these those of each group.
    lists: Vec<Vec<u32>>,
    /// The set: whether each variable is in.
    inside: Vec<bool>,
    /// The group that it breaks alone.
    group: u32,
    turns: Vec<Turn>,
    /// The groups that are come by.
    pub(crate) marks: Vec<bool>,
    alloc: Global,
}

impl Rotation {
    /// Buffers with no room yet.
    pub fn new(alloc: Global) -> Rotation {
        Rotation {
            lists: Vec::new(alloc),
            inside: Vec::new(alloc),
            group: 0,
            turns: Vec::new(alloc),
            marks: Vec::new(alloc),
            alloc,
        }
    }

    /// The set, with a variable turned.
    fn turned(&self, var: u32) -> Turned<'_>
        ensures inside { result.inside.now ≡ self.now.inside.items }
        ensures var { result.var ≡ var }
    {
        Turned {
            inside: &self.inside,
            var,
        }
    }

    /// Takes in a set. False if it breaks another kept group than this one.
    fn start(&mut self, problem: &Problem, set: &[u32], group: u32) -> Result<bool, AllocError>
        ensures alone { IfOk result (λ alone. alone ≡ true → BreaksAlone problem.now self.new.inside.items group) }
        ensures group { IfOk result (λ _. self.new.group ≡ group) }
        ensures lists { self.new.lists ≡ self.old.lists }
        ensures marks { self.new.marks ≡ self.old.marks }
    {
        self.group = group;
        self.inside.clear();
        self.inside.resize(problem.vars as usize, false)?;
        for var in set {
            mark(&mut self.inside, *var);
        }
        let set = self.turned(problem.vars);
        Ok(set.has(problem.must) && set.meets_all(problem, group as usize))
    }

    /// A group that breaks where a variable is turned. It is a hint.
    fn broken_by(&self, problem: &Problem, var: u32) -> Option<u32> {
        let numbers = self.lists.get(var as usize)?;
        let number = self.turned(var).first_broken(problem, numbers, usize::MAX)?;
        Some(problem.spans.get(number as usize)?.group)
    }

    /// Turns a variable, if the set then breaks this group alone.
    fn turn(&mut self, problem: &Problem, var: u32, group: u32) -> bool
        requires listed { (k : ℕ) → k < length problem.now.spans.now → IsListed problem.now self.old.lists.items k }
        requires before { BreaksAlone problem.now self.old.inside.items self.old.group }
        ensures after { BreaksAlone problem.now self.new.inside.items self.new.group }
        ensures group { result ≡ true → self.new.group ≡ group }
        ensures lists { self.new.lists ≡ self.old.lists }
        ensures marks { self.new.marks ≡ self.old.marks }
    {
        if var == problem.must || var >= problem.vars {
            return false;
        }
        let set = self.turned(var);
        let Some(spoken) = self.lists.get(var as usize) else {
            return false;
        };
        let Some(broken) = self.lists.get(problem.vars as usize + self.group as usize) else {
            return false;
        };
        if set.first_broken(problem, spoken, group as usize).is_some()
            || set.first_broken(problem, broken, group as usize).is_some()
        {
            return false;
        }
        self.inside[var as usize] = !self.inside[var as usize];
        self.group = group;
        true
    }

    /// Has the variables turned, one after the other, of each span of the broken group that the set breaks.
    fn push_turns(&mut self, problem: &Problem) -> Result<(), AllocError>
        ensures set { (self.new.lists ≡ self.old.lists) × (self.new.inside ≡ self.old.inside) × (self.new.group ≡ self.old.group) }
        ensures marks { self.new.marks ≡ self.old.marks }
    {
        let set = Turned {
            inside: &self.inside,
            var: problem.vars,
        };
        let key = problem.vars as usize + self.group as usize;
        let Some(numbers) = self.lists.get(key) else {
            return Ok(());
        };
        for number in numbers {
            let Some(span) = problem.spans.get(*number as usize).copied() else {
                continue;
            };
            let mut clear = (0, 0);
            if set.satisfies_span(problem.literals, span, &mut clear) {
                continue;
            }
            if let Some(owner) = span.owner {
                self.turns.push(Turn {
                    var: owner,
                    back: None,
                })?;
            }
            for literal in &problem.literals[span.start..span.end] {
                if span.owner.is_none() || set.has(literal.var) {
                    self.turns.push(Turn {
                        var: literal.var,
                        back: None,
                    })?;
                }
            }
        }
        Ok(())
    }

    /// Takes a turn, and marks the group that it brings to. The next turns are those of that group, and then the way back.
    fn take(&mut self, problem: &Problem, turn: Turn) -> Result<(), AllocError>
        requires listed { (k : ℕ) → k < length problem.now.spans.now → IsListed problem.now self.old.lists.items k }
        requires before { BreaksAlone problem.now self.old.inside.items self.old.group }
        requires needed { MarksNeeded problem.now self.old.marks.items }
        ensures after { OnOk result (BreaksAlone problem.now self.new.inside.items self.new.group) }
        ensures needed { OnOk result (MarksNeeded problem.now self.new.marks.items) }
        ensures sized { length self.new.marks.items ≡ length self.old.marks.items }
        ensures lists { self.new.lists ≡ self.old.lists }
    {
        if let Some(group) = turn.back {
            self.turn(problem, turn.var, group);
            return Ok(());
        }
        let Some(group) = self.broken_by(problem, turn.var) else {
            return Ok(());
        };
        let before = self.group;
        let is_marked = self.marks.get(group as usize).copied() == Some(true);
        if is_marked || !self.turn(problem, turn.var, group) {
            return Ok(());
        }
        mark(&mut self.marks, group);
        self.turns.push(Turn {
            var: turn.var,
            back: Some(before),
        })?;
        self.push_turns(problem)?;
        Ok(())
    }

    /// Marks the groups that are come by from a set, if that breaks a group alone.
    pub(crate) fn walk(
        &mut self,
        problem: &Problem,
        set: &[u32],
        group: u32,
    ) -> Result<(), AllocError>
        ensures needed { OnOk result (MarksNeeded problem.now self.new.marks.items) }
        ensures sized { OnOk result (length self.new.marks.items ≡ length problem.now.keep.now) }
    {
        self.marks.clear();
        self.marks.resize(problem.keep.len(), false)?;
        if listed_by(problem) > LISTED {
            return Ok(());
        }
        list_spans(self.alloc, &mut self.lists, problem)?;
        if !self.start(problem, set, group)? {
            return Ok(());
        }
        mark(&mut self.marks, group);
        self.turns.clear();
        self.push_turns(problem)?;
        for _ in 0..LISTED {
            let Some(turn) = self.turns.pop() else {
                break;
            };
            self.take(problem, turn)?;
        }
        Ok(())
    }
}
