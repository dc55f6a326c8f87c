//! Propagation by two watched literals (M. Moskewicz and others, "Chaff: engineering an efficient SAT solver", 2001).

ghost use Rattle.std.specs.Prelude.{◌<◌, IfOk};
ghost use Rattle.sat_solve.specs.SolverState.{IsSolver, GoesOn};

use crate::clause::{Lit, Problem};
use crate::exclusions::Exclusions;
use crate::solver::Solver;
use crate::trail::{Reason, Trail};
use std::alloc::{AllocError, Global};
use std::mem;

/// The end of a list of watches.
const END: u32 = u32::MAX;

/// A watch of one of a clause's literals.
#[derive(Clone, Copy)]
struct Watch {
    /// The next one of the same literal.
    next: u32,
    /// Which of the clause's literals it watches.
    place: u32,
}

/// A watch that watches nothing yet.
const IDLE: Watch = Watch {
    next: END,
    place: 0,
};

/// Two watched literals for each clause that has two, in a list for each literal.
///
/// The lists are hints: a clause is examined before it forces anything, and the kept ones are looked at once more
/// at the end. A number that is out of range ends its list.
#[derive(Drop)]
pub(crate) struct Watches {
    /// The first watch of each literal: of the variable v, 2v where it is negative and 2v + 1 where it is positive.
    head: Vec<u32>,
    /// Those of the clause number k are 2k and 2k + 1.
    watches: Vec<Watch>,
    exclusions: Exclusions,
}

/// What is to become of a watch whose literal failed.
enum Fate {
    /// The other watch holds.
    Stay,
    /// Another literal of the clause, at this place, may still hold.
    Move(u32, Lit),
    /// All literals but that of the other watch failed.
    Examine,
}

/// How many watches there are of so many clauses.
fn watches_of(clauses: usize) -> usize {
    clauses.min(END as usize / 2) * 2
}

/// The list of a literal.
fn list_of(literal: Lit) -> usize {
    (literal.var as usize) * 2 + usize::from(literal.positive)
}

impl Watches {
    /// No watches.
    pub(crate) fn new(alloc: Global) -> Watches {
        Watches {
            head: Vec::new(alloc),
            watches: Vec::new(alloc),
            exclusions: Exclusions::new(alloc),
        }
    }

    /// Makes room for the watches of a problem's clauses.
    pub(crate) fn restart(&mut self, problem: &Problem) -> Result<(), AllocError> {
        self.exclusions.restart();
        self.head.clear();
        self.head.resize((problem.vars as usize) * 2, END)?;
        self.watches.clear();
        self.watches.resize(watches_of(problem.spans.len()), IDLE)
    }

    /// Puts a watch at the head of a list.
    fn link(&mut self, watch: u32, list: usize) {
        if (watch as usize) < self.watches.len() && list < self.head.len() {
            self.watches[watch as usize].next = self.head[list];
            self.head[list] = watch;
        }
    }

    /// Lets a watch watch the literal at a place of its clause.
    fn move_to(&mut self, watch: u32, place: u32, literal: Lit) {
        if (watch as usize) < self.watches.len() {
            self.watches[watch as usize].place = place;
            self.link(watch, list_of(literal));
        }
    }

    /// Watches the first two literals of a clause.
    fn attach(&mut self, clause: usize, literals: &[Lit]) {
        if clause < END as usize / 2 && literals.len() >= 2 {
            let watch = clause as u32 * 2;
            self.move_to(watch, 0, literals[0]);
            self.move_to(watch + 1, 1, literals[1]);
        }
    }

    /// Watches the clause that was learnt last, and where it is alone no other learnt one any more.
    pub(crate) fn watch_learnt(
        &mut self,
        problem: &Problem,
        solver: &Solver,
        is_alone: bool,
    ) -> Result<(), AllocError> {
        if is_alone {
            self.forget(problem);
        }
        if let Some(literals) = solver.learnt.last() {
            let clauses = problem.spans.len().saturating_add(solver.learnt.len());
            self.watches.resize(watches_of(clauses), IDLE)?;
            self.attach(clauses - 1, literals);
        }
        Ok(())
    }

    /// Watches no learnt clause any more.
    fn forget(&mut self, problem: &Problem) {
        let given = watches_of(problem.spans.len());
        'lists: for list in 0..self.head.len() {
            let mut watch = self.take_list(list);
            'watches: for _ in 0..self.watches.len() {
                if watch as usize >= self.watches.len() {
                    break;
                }
                let after = self.watches[watch as usize].next;
                if (watch as usize) < given {
                    self.link(watch, list);
                }
                watch = after;
            }
        }
    }

    /// Takes a literal's list away.
    fn take_list(&mut self, list: usize) -> u32 {
        self.head
            .get_mut(list)
            .map_or(END, |head| mem::replace(head, END))
    }

    /// Where in its clause a watch's literal stands.
    fn place_of(&self, watch: u32) -> u32 {
        self.watches
            .get(watch as usize)
            .map_or(0, |watch| watch.place)
    }

    /// What is to become of a watch whose literal failed.
    fn fate(&self, problem: &Problem, solver: &Solver, watch: u32) -> Fate {
        let clause = watch as usize / 2;
        if clause < problem.spans.len() {
            let span = problem.spans[clause];
            let literals = &problem.literals[span.start..span.end];
            return self.fate_in(literals, &solver.trail, watch);
        }
        match solver.learnt.get(clause - problem.spans.len()) {
            Some(learnt) => self.fate_in(learnt, &solver.trail, watch),
            None => Fate::Examine,
        }
    }

    /// What is to become of a watch of this clause.
    fn fate_in(&self, literals: &[Lit], trail: &Trail, watch: u32) -> Fate {
        let other = self.place_of(watch ^ 1);
        let held = literals.get(other as usize);
        if held.is_some_and(|literal| trail.truth(*literal) == Some(true)) {
            return Fate::Stay;
        }
        // Where the last look for a literal ended, the next one begins: so a clause is read once for each time it is forced.
        let mut place = self.place_of(watch);
        for _ in 0..literals.len() + 1 {
            match literals.get(place as usize) {
                Some(literal) => {
                    if place != other && trail.truth(*literal) != Some(false) {
                        return Fate::Move(place, *literal);
                    }
                    place = place.saturating_add(1);
                }
                None => place = 0,
            }
        }
        Fate::Examine
    }

    /// Looks at the clauses that watch a literal which failed, until one fails whole.
    fn visit(
        &mut self,
        problem: &Problem,
        solver: &mut Solver,
        failed: Lit,
    ) -> Result<Option<Reason>, AllocError>
        requires solver { IsSolver problem.now solver.old }
        ensures { IfOk result (GoesOn problem.now solver.old solver.new) }
    {
        let list = list_of(failed);
        let mut conflict = None;
        let mut watch = self.take_list(list);
        'watches: for _ in 0..self.watches.len() {
            if watch as usize >= self.watches.len() {
                break;
            }
            let after = self.watches[watch as usize].next;
            if conflict.is_some() {
                self.link(watch, list);
            } else {
                match self.fate(problem, solver, watch) {
                    Fate::Stay => self.link(watch, list),
                    Fate::Move(place, literal) => self.move_to(watch, place, literal),
                    Fate::Examine => {
                        self.link(watch, list);
                        conflict = solver.examine(problem, watch as usize / 2)?;
                    }
                }
            }
            watch = after;
        }
        Ok(conflict)
    }

    /// Looks at the clauses that watch what failed by the steps not yet propagated, and at the lists of what came in.
    pub(crate) fn propagate(
        &mut self,
        problem: &Problem,
        solver: &mut Solver,
    ) -> Result<Option<Reason>, AllocError>
        requires solver { IsSolver problem.now solver.old }
        ensures { IfOk result (GoesOn problem.now solver.old solver.new) }
    {
        'steps: for _ in 0..problem.vars {
            if solver.propagated >= solver.trail.steps.len() {
                break;
            }
            let step = solver.trail.steps[solver.propagated];
            solver.propagated += 1;
            if let Some(conflict) = self.visit(problem, solver, step.denied())? {
                return Ok(Some(conflict));
            }
            if step.value {
                if let Some(conflict) = self.exclusions.rule_out(problem, solver, step.var)? {
                    return Ok(Some(conflict));
                }
            }
        }
        Ok(None)
    }

    /// Watches the kept clauses of two literals or more and the lists, looks at the shorter clauses, and propagates.
    pub(crate) fn load(
        &mut self,
        problem: &Problem,
        solver: &mut Solver,
    ) -> Result<Option<Reason>, AllocError>
        requires solver { IsSolver problem.now solver.old }
        ensures { IfOk result (GoesOn problem.now solver.old solver.new) }
    {
        for clause in 0..problem.spans.len() {
            let span = problem.spans[clause];
            if let Some(owner) = span.owner {
                self.exclusions.attach(problem, clause, owner)?;
            } else if span.end - span.start >= 2 {
                if problem.keep[span.group as usize] {
                    self.attach(clause, &problem.literals[span.start..span.end]);
                }
            } else {
                let conflict = solver.examine(problem, clause)?;
                if conflict.is_some() {
                    return Ok(conflict);
                }
            }
        }
        Ok(self.propagate(problem, solver)?)
    }
}
