//! A formula: clauses in groups, and the calls that solve it.

ghost use Rattle.std.specs.Prelude.{◌≡◌, ◌<◌, length, All, IfOk, OnErr, OnOk, [], ◌∷◌, ◌++◌, map};
ghost use Rattle.sat_solve.specs.Clauses.{IsAnswer, clauses_of, excluding, out_of, span_of};
ghost use Rattle.sat_solve.specs.Rotation.{AreNeeded};

use crate::clause::{Lit, Owner, Problem, Span};
use crate::rotation::Rotation;
use crate::search::Workspace;
use std::alloc::{AllocError, Global};
use std::marker::Model;

/// Clauses over the variables from 0 on, each in one of the groups from 0 on.
#[derive(Drop)]
pub struct Formula {
    pub(crate) vars: u32,
    groups: u32,
    /// The literals of all clauses, one clause after another.
    pub(crate) literals: Vec<Lit>,
    pub(crate) spans: Vec<Span>,
}

impl Model for Formula {
    ghost use Rattle.sat_solve.specs.Clauses.{Clauses};

    ghost Value = { Clauses };

    ghost use Rattle.sat_solve.specs.Clauses.{clauses_of, AreClauses};

    ghost view = { λ f. record { vars = f.vars; groups = f.groups; clauses = clauses_of f.literals.items f.spans.items } };

    ghost invariant = { λ f. AreClauses f.vars f.groups f.literals.items f.spans.items };
}

impl Formula {
    /// A formula of no clauses, over `vars` variables and with `groups` groups.
    ///
    /// The error is want of memory.
    pub fn new(alloc: Global, vars: u32, groups: u32) -> Result<Formula, AllocError>
        ensures { IfOk result (λ formula. formula ≡ record { vars = vars; groups = groups; clauses = [] }) }
    {
        Ok(Formula {
            vars,
            groups,
            literals: Vec::new(alloc),
            spans: Vec::new(alloc),
        })
    }

    /// Starts over as a formula of no clauses, over `vars` variables and with `groups` groups, in the memory that it has.
    pub fn restart(&mut self, vars: u32, groups: u32)
        ensures { self.new ≡ record { vars = vars; groups = groups; clauses = [] } }
    {
        self.literals.clear();
        self.spans.clear();
        self.vars = vars;
        self.groups = groups;
    }

    /// How many variables there are: they are the numbers below it.
    pub fn vars(&self) -> u32
        ensures { result ≡ self.now.vars }
    {
        self.vars
    }

    /// How many groups there are: they are the numbers below it.
    pub fn groups(&self) -> u32
        ensures { result ≡ self.now.groups }
    {
        self.groups
    }

    /// Adds a clause, of no literal or more, to a group.
    ///
    /// The group is below `groups()`, and each variable below `vars()`. A clause of no literals holds in no set.
    /// The error is want of memory, and leaves the formula as it was.
    pub fn add(&mut self, group: u32, clause: &[Lit]) -> Result<(), AllocError>
        requires group { group < self.old.groups }
        requires in_range { All (λ literal. literal.var < self.old.vars) clause.now }
        ensures ok { IfOk result (λ _. self.new ≡ record self.old { clauses = self.old.clauses ++ record { group = group; literals = clause.now } ∷ [] }) }
        ensures err { OnErr result (self.new ≡ self.old) }
    {
        let start = self.literals.len();
        self.literals.extend_from_slice(clause)?;
        let end = self.literals.len();
        self.spans.push(Span {
            group,
            start,
            end,
            owner: None,
        })?;
        Ok(())
    }

    /// Adds that each owner excludes each other variable of a list: in the owner's group, one clause for each, that it and the owner
    /// are not both in.
    ///
    /// The list takes the memory of one clause, however many owners it has. With all of the list as owners, at most one of it is in.
    /// The error is want of memory, and leaves the formula as it was.
    pub fn exclude(&mut self, owners: &[Owner], list: &[u32]) -> Result<(), AllocError>
        requires groups { All (λ owner. owner.group < self.old.groups) owners.now }
        requires owners { All (λ owner. owner.var < self.old.vars) owners.now }
        requires list { All (λ var. var < self.old.vars) list.now }
        ensures ok { IfOk result (λ _. self.new ≡ record self.old { clauses = self.old.clauses ++ excluding owners.now list.now }) }
        ensures err { OnErr result (self.new ≡ self.old) }
    {
        let start = self.literals.len();
        push_list(list, &mut self.literals)?;
        let end = self.literals.len();
        push_owners(owners, start, end, &mut self.spans)?;
        Ok(())
    }

    /// The first set of variables that contains `must` and makes each clause of a kept group true, or `None` where there is no such set.
    ///
    /// `keep` has one mark a group. The variables of the set are given rising. Of two sets the one that lacks the least variable in
    /// which they differ comes first. The error is want of memory.
    pub fn solve(
        &self,
        alloc: Global,
        keep: &[bool],
        must: u32,
    ) -> Result<Option<Vec<u32>>, AllocError>
        requires keep { length keep.now ≡ self.now.groups }
        requires must { must < self.now.vars }
        ensures { IfOk result (IsAnswer self.now.vars self.now.clauses keep.now must keep.now) }
    {
        self.solve_in(alloc, &mut Workspace::new(alloc), keep, must)
    }

    /// What `solve` gives, found in the buffers of an earlier solve.
    ///
    /// The answer does not depend on what the workspace was used for.
    pub fn solve_in(
        &self,
        alloc: Global,
        workspace: &mut Workspace,
        keep: &[bool],
        must: u32,
    ) -> Result<Option<Vec<u32>>, AllocError>
        requires keep { length keep.now ≡ self.now.groups }
        requires must { must < self.now.vars }
        ensures { IfOk result (IsAnswer self.now.vars self.now.clauses keep.now must keep.now) }
    {
        Ok(workspace.solve(alloc, &self.problem(keep, must))?)
    }

    /// What `solve_in` gives. Where there is no set, `marks` then names kept groups that already admit none, one mark a group.
    ///
    /// The marked groups need not be few. Where a set is found, the marks say nothing.
    pub fn solve_marked(
        &self,
        alloc: Global,
        workspace: &mut Workspace,
        keep: &[bool],
        must: u32,
        marks: &mut Vec<bool>,
    ) -> Result<Option<Vec<u32>>, AllocError>
        requires keep { length keep.now ≡ self.now.groups }
        requires must { must < self.now.vars }
        ensures { IfOk result (IsAnswer self.now.vars self.now.clauses keep.now must marks.new.items) }
    {
        let answer = workspace.solve(alloc, &self.problem(keep, must))?;
        marks.clear();
        marks.extend_from_slice(&workspace.solver.used)?;
        Ok(answer)
    }

    /// The marks, one a group, of kept groups without each of which the others have a set: those that are come by from a set, if it
    /// breaks the clauses of one group alone.
    ///
    /// Nothing need be known of the set and of the group. The error is want of memory.
    pub fn mark_needed<'r>(
        &self,
        rotation: &'r mut Rotation,
        keep: &[bool],
        must: u32,
        set: &[u32],
        group: u32,
    ) -> Result<&'r [bool], AllocError>
        requires keep { length keep.now ≡ self.now.groups }
        requires must { must < self.now.vars }
        ensures sized { IfOk result (λ marks. length marks.now ≡ self.now.groups) }
        ensures needed { IfOk result (λ marks. AreNeeded self.now.vars self.now.clauses keep.now must marks.now) }
    {
        rotation.walk(&self.problem(keep, must), set, group)?;
        Ok(&rotation.marks)
    }

    /// What a solve is asked of the formula.
    fn problem<'a>(&'a self, keep: &'a [bool], must: u32) -> Problem<'a>
        requires keep { length keep.now ≡ self.now.groups }
        requires must { must < self.now.vars }
        ensures vars { result.vars ≡ self.now.vars }
        ensures clauses { clauses_of result.literals.now result.spans.now ≡ self.now.clauses }
        ensures asked { (result.keep.now ≡ keep.now) × (result.must ≡ must) }
    {
        Problem {
            vars: self.vars,
            literals: &self.literals,
            spans: &self.spans,
            keep,
            must,
        }
    }
}

/// Puts the variables of a list behind the literals, each as the literal that it is out.
fn push_list(list: &[u32], literals: &mut Vec<Lit>) -> Result<(), AllocError>
    ensures ok { IfOk result (λ _. literals.new.items ≡ literals.old.items ++ map out_of list.now) }
    ensures err { OnErr result (literals.new.items ≡ literals.old.items) }
{
    literals.reserve(list.len())?;
    for var in list {
        literals.push_reserved(Lit::out(*var));
    }
    Ok(())
}

/// Puts a span for each owner of the list at these places behind the others.
fn push_owners(
    owners: &[Owner],
    start: usize,
    end: usize,
    spans: &mut Vec<Span>,
) -> Result<(), AllocError>
    ensures ok { IfOk result (λ _. spans.new.items ≡ spans.old.items ++ map (span_of start end) owners.now) }
    ensures err { OnErr result (spans.new.items ≡ spans.old.items) }
{
    spans.reserve(owners.len())?;
    for owner in owners {
        spans.push_reserved(Span {
            group: owner.group,
            start,
            end,
            owner: Some(owner.var),
        });
    }
    Ok(())
}
