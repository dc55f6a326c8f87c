//! A core as it is walked from the package, in lines.

ghost use Rattle.std.specs.Prelude.{◌≡◌, ◌<◌, ◌++◌, [], All, IfOk, OnOk, length, map, reverse};
ghost use Rattle.deb_relation.specs.Relationship.{atom_view};
ghost use Rattle.number_sets.specs.Sets.{members_of};
ghost use Rattle.deb_report.specs.Walk.{IsStepOf, own_steps, places_in, step_limit, steps_behind, told_behind};
ghost use Rattle.deb_report.specs.Sought.{FitsWalk};
ghost use Rattle.deb_report.specs.WalkLines.{lead, package_line, package_text, step_text, walk_lines, walk_text};

use crate::answers::answer_at;
use crate::own::OwnTable;
use crate::walk::{Step, comers, first_steps, met_steps, own_steps, put_before};
use crate::walk_constraints::{Walk, push_above, push_near};
use deb_causes::Similar;
use deb_index::{Constraint, Index};
use deb_relation::Atom;
use std::alloc::{AllocError, Global};
use std::collections::HashSet;

/// Adds what stands before a line.
#[tactic(auto, unfolding(crate::specs::WalkLines::lead))]
fn push_lead(out: &mut Vec<u8>, depth: u32) -> Result<(), AllocError>
    ensures { OnOk result (out.new.items ≡ out.old.items ++ lead depth) }
{
    for _ in 0..depth {
        out.extend_from_slice(b"  ")?;
    }
    out.extend_from_slice(b"   - ")
}

/// Adds the line of a package.
#[tactic(auto, unfolding(crate::specs::WalkLines::package_line))]
fn push_package_line(
    out: &mut Vec<u8>,
    index: &Index,
    depth: u32,
    place: u32,
    entries: &Vec<&Atom>,
    told: bool,
) -> Result<(), AllocError>
    requires { place < length index.now.packages }
    ensures { OnOk result (out.new.items ≡ out.old.items ++ package_line index.now depth place (map (λ entry. atom_view entry.now) entries.now.items) told) }
{
    push_lead(out, depth)?;
    push_near(out, index.package(place), entries)?;
    push_above(out, told)?;
    out.extend_from_slice(b"\n")
}

impl<'i> Walk<'i> {
    /// Adds the line of a package, where it has one of its own, and gives what the core says of it.
    #[tactic(auto, unfolding(crate::specs::WalkLines::package_text))]
    fn enter(
        &self,
        out: &mut Vec<u8>,
        depth: u32,
        place: u32,
        entries: &Vec<&Atom>,
    ) -> Result<Vec<Step>, AllocError>
        requires { place < length self.now.index.now.packages }
        ensures text { OnOk result (out.new.items ≡
            out.old.items ++ package_text self.now.index.now self.now.core.now depth place (map (λ entry. atom_view entry.now) entries.now.items)) }
        ensures steps { IfOk result (λ steps. steps.items ≡ own_steps self.now.core.now depth place) }
    {
        let steps = own_steps(self.alloc, self.core, depth, place)?;
        if steps.is_empty() || !entries.is_empty() {
            push_package_line(out, self.index, depth, place, entries, false)?;
        }
        Ok(steps)
    }

    /// Goes a step, and gives the steps that follow from it.
    #[tactic(auto, unfolding(crate::specs::WalkLines::step_text, crate::specs::Walk::steps_behind))]
    fn go(
        &self,
        out: &mut Vec<u8>,
        told: &mut HashSet<u32>,
        step: Step,
    ) -> Result<Vec<Step>, AllocError>
        requires { IsStepOf self.now.index.now (FitsWalk self.now.index.now self.now.similar.now) step }
        ensures text { OnOk result (out.new.items ≡
            out.old.items ++ step_text self.now.index.now self.now.core.now (places_in self.now.coming.now) (places_in told.old) step) }
        ensures told { OnOk result (places_in told.new ≡ told_behind (places_in told.old) step) }
        ensures steps { IfOk result (λ steps. steps.items ≡ steps_behind self.now.index.now self.now.core.now (places_in told.old) step) }
    {
        match step {
            Step::Begin(place) => {
                if !told.insert(place)? {
                    return Ok(Vec::new(self.alloc));
                }
                self.enter(out, 0, place, &Vec::new(self.alloc))
            }
            Step::Meet(depth, place, constraint) => {
                let answer = answer_at(self.alloc, self.index, constraint, place)?;
                if !told.insert(place)? {
                    push_package_line(out, self.index, depth, place, &answer.provides, true)?;
                    return Ok(Vec::new(self.alloc));
                }
                self.enter(out, depth, place, &answer.provides)
            }
            Step::Tell(depth, constraint) => {
                push_lead(out, depth)?;
                self.push_constraint(out, told, constraint)?;
                out.extend_from_slice(b"\n")?;
                met_steps(self.alloc, self.index, told, depth, constraint)
            }
        }
    }

    /// Goes these steps and all that follow from them, one after the other.
    fn go_all(
        &self,
        out: &mut Vec<u8>,
        told: &mut HashSet<u32>,
        stack: &mut Vec<Step>,
    ) -> Result<(), AllocError>
        requires core { All (FitsWalk self.now.index.now self.now.similar.now) self.now.core.now }
        requires steps { All (IsStepOf self.now.index.now (FitsWalk self.now.index.now self.now.similar.now)) (reverse stack.old.items) }
        ensures { OnOk result (out.new.items ≡
            out.old.items ++ walk_text step_limit self.now.index.now self.now.core.now (places_in self.now.coming.now) (places_in told.old)
            (reverse stack.old.items)) }
    {
        for _ in 0..u64::MAX {
            let Some(step) = stack.pop() else {
                return Ok(());
            };
            let behind = self.go(out, told, step)?;
            put_before(stack, behind)?;
        }
        Ok(())
    }

    /// Goes the steps of a walk, of which nothing is told yet.
    fn go_from(&self, out: &mut Vec<u8>, steps: Vec<Step>) -> Result<(), AllocError>
        requires core { All (FitsWalk self.now.index.now self.now.similar.now) self.now.core.now }
        requires steps { All (IsStepOf self.now.index.now (FitsWalk self.now.index.now self.now.similar.now)) steps.items }
        ensures { OnOk result (out.new.items ≡
            out.old.items ++ walk_text step_limit self.now.index.now self.now.core.now (places_in self.now.coming.now) (members_of []) steps.items) }
    {
        let mut stack = Vec::new(self.alloc);
        put_before(&mut stack, steps)?;
        self.go_all(out, &mut HashSet::new(self.alloc), &mut stack)
    }
}

/// Adds the lines of a core as it is walked from the package at a place.
///
/// The core and the place are of the index, and the names that are similar to those of the core's missing needs were looked for. `AllocError` where
/// there is no memory for it.
#[tactic(auto, unfolding(crate::specs::WalkLines::walk_lines))]
pub fn push_walk(
    alloc: Global,
    out: &mut Vec<u8>,
    index: &Index,
    similar: &Similar,
    place: u32,
    core: &[Constraint],
) -> Result<(), AllocError>
    requires place { place < length index.now.packages }
    requires core { All (FitsWalk index.now similar.now) core.now }
    ensures { OnOk result (out.new.items ≡ out.old.items ++ walk_lines index.now place core.now) }
{
    let first = first_steps(alloc, core, place)?;
    let coming = comers(alloc, index, place, core)?;
    let table = OwnTable::new(alloc, core)?;
    let walk = Walk {
        alloc,
        index,
        core: &table,
        coming: &coming,
        similar,
    };
    walk.go_from(out, first)?;
    Ok(())
}
