//! Propagation of lists whose variables exclude each other: what comes in walks the lists that it owns or stands in.

ghost use Rattle.std.specs.Prelude.{◌<◌, length, IfOk};
ghost use Rattle.sat_solve.specs.SolverState.{IsSolver, GoesOn};

use crate::clause::{Lit, Problem, Span};
use crate::solver::Solver;
use crate::trail::{Reason, Trail};
use std::alloc::{AllocError, Global};

/// What a variable that comes in walks: the places of a list, or the spans of its owners, which stand one after another.
#[derive(Clone, Copy)]
struct Walk {
    start: usize,
    end: usize,
    /// The variable that walked here last.
    by: Option<u32>,
}

/// That a variable owns a list or stands in it.
#[derive(Clone, Copy)]
struct Link {
    /// The link that the variable had before.
    after: Option<usize>,
    /// What the variable walks when it comes in: of a list that it owns the places, and else the owners.
    walk: usize,
    /// The number of the span by which it owns the list, or the place at which it stands in it.
    at: usize,
    owns: bool,
}

/// The lists that each variable owns, and those that it stands in.
///
/// They are hints, as the watches are: a pair is examined before it forces anything.
#[derive(Drop)]
pub(crate) struct Exclusions {
    /// Of each list its places, and then its owners.
    walks: Vec<Walk>,
    links: Vec<Link>,
    /// The newest link of each variable.
    newest: Vec<Option<usize>>,
}

impl Exclusions {
    /// No lists.
    pub(crate) fn new(alloc: Global) -> Exclusions {
        Exclusions {
            walks: Vec::new(alloc),
            links: Vec::new(alloc),
            newest: Vec::new(alloc),
        }
    }

    /// Starts over with no lists.
    pub(crate) fn restart(&mut self) {
        self.walks.clear();
        self.links.clear();
        self.newest.clear();
    }

    /// Takes in the span of an owner, if it is kept, and its list, if that is a new one.
    pub(crate) fn attach(
        &mut self,
        problem: &Problem,
        number: usize,
        owner: u32,
    ) -> Result<(), AllocError>
        requires number { number < length problem.now.spans.now }
    {
        let span = problem.spans[number];
        if !problem.keep[span.group as usize] {
            return Ok(());
        }
        let newest = self.walks.get(self.walks.len().saturating_sub(2));
        if !newest.is_some_and(|list| list.start == span.start && list.end == span.end) {
            self.add_list(problem, span, number)?;
        }
        if let Some(owners) = self.walks.last_mut() {
            owners.end = number + 1;
        }
        let places = self.walks.len().saturating_sub(2);
        self.link(owner, places, number, true)
    }

    /// Adds the list of a span, whose owners stand from this number on.
    fn add_list(&mut self, problem: &Problem, span: Span, number: usize) -> Result<(), AllocError> {
        self.newest.resize(problem.vars as usize, None)?;
        for (start, end) in [(span.start, span.end), (number, number)] {
            self.walks.push(Walk {
                start,
                end,
                by: None,
            })?;
        }
        let owners = self.walks.len().saturating_sub(1);
        for place in span.start..span.end.min(problem.literals.len()) {
            self.link(problem.literals[place].var, owners, place, false)?;
        }
        Ok(())
    }

    /// Links a variable to what it walks.
    fn link(&mut self, var: u32, walk: usize, at: usize, owns: bool) -> Result<(), AllocError> {
        if let Some(newest) = self.newest.get_mut(var as usize) {
            let number = self.links.len();
            self.links.push(Link {
                after: *newest,
                walk,
                at,
                owns,
            })?;
            *newest = Some(number);
        }
        Ok(())
    }

    /// What a variable that came in has yet to walk by a link.
    ///
    /// Where another one walked and is still in, that ruled out already what this one would.
    fn begin(&mut self, trail: &Trail, var: u32, link: Link) -> Option<Walk> {
        let walk = self.walks.get_mut(link.walk)?;
        if let Some(by) = walk.by {
            if by != var && trail.truth(Lit::out(by)) == Some(false) {
                return None;
            }
        }
        walk.by = Some(var);
        Some(*walk)
    }

    /// Looks at the pairs of a variable that came in.
    pub(crate) fn rule_out(
        &mut self,
        problem: &Problem,
        solver: &mut Solver,
        var: u32,
    ) -> Result<Option<Reason>, AllocError>
        requires solver { IsSolver problem.now solver.old }
        ensures { IfOk result (GoesOn problem.now solver.old solver.new) }
    {
        let mut next = self.newest.get(var as usize).copied().flatten();
        'links: for _ in 0..self.links.len() {
            let Some(link) = next.and_then(|number| self.links.get(number).copied()) else {
                break;
            };
            next = link.after;
            let Some(walk) = self.begin(&solver.trail, var, link) else {
                continue;
            };
            for other in walk.start..walk.end {
                let (span, place) = if link.owns {
                    (link.at, other)
                } else {
                    (other, link.at)
                };
                if let Some(conflict) = solver.examine_pair(problem, span, place)? {
                    return Ok(Some(conflict));
                }
            }
        }
        Ok(None)
    }
}
