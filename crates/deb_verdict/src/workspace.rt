//! The buffers of a verdict.

use crate::gather::Candidates;
use deb_encode::Gathered;
use deb_groundwork::{BaseSet, Propagation, Witness};
use deb_index::Constraint;
use number_sets::SparseSet;
use sat_solve::{Formula, Lit};
use std::alloc::{AllocError, Global};

/// The buffers in which a verdict is found, and which are taken over for the next one, of whatever package and index.
///
/// What an earlier verdict left in them changes no answer.
// Who makes one lends it, and drops it by a call of `drop`: at the end of a function the proof would go through each buffer.
#[derive(Drop)]
pub struct Workspace {
    /// The places that are in every set that is looked for, and those that have a variable each.
    pub(crate) forced: SparseSet,
    pub(crate) candidates: Candidates,
    pub(crate) formula: Formula,
    /// A clause in the making, the places that answer a need, and what is gathered of those in play.
    pub(crate) clause: Vec<Lit>,
    pub(crate) found: Vec<u32>,
    pub(crate) gathered: Gathered,
    pub(crate) solver: sat_solve::Workspace,
    pub(crate) propagation: Propagation,
    pub(crate) witness: Witness,
    /// That of questions that keep no constraint yet and leave some out: from one cause to the next it goes on growing.
    pub(crate) first_witness: Witness,
    /// A base set of nothing.
    pub(crate) nothing: BaseSet,
    /// The constraints that speak of the closure of a broken package.
    pub(crate) constraints: Vec<Constraint>,
    /// Whether the next question is put to the package's formula alone.
    pub(crate) alone: bool,
    /// How many causes of the package in a row its formula alone showed.
    pub(crate) by_formula: u32,
    /// Whether the next witness for the package stands on nothing first, as the last set for it did.
    pub(crate) on_nothing: bool,
    /// The groups that a solve keeps, and those that it used.
    pub(crate) keep: Vec<bool>,
    pub(crate) marks: Vec<bool>,
    /// A set that a formula admitted, and what is come by from it.
    pub(crate) set: Vec<u32>,
    pub(crate) rotation: sat_solve::Rotation,
    pub(crate) needed: Vec<u32>,
    /// The positions of the constraints that the last refutation used.
    pub(crate) used: Vec<u32>,
    /// The positions of those that earlier causes have.
    pub(crate) out: SparseSet,
}

impl Workspace {
    /// Buffers with nothing in them and no room yet. The error is want of memory.
    pub fn new(alloc: Global) -> Result<Workspace, AllocError> {
        let formula = Formula::new(alloc, 0, 0)?;
        Ok(Workspace {
            forced: SparseSet::new(alloc),
            candidates: Candidates::new(alloc),
            formula,
            clause: Vec::new(alloc),
            found: Vec::new(alloc),
            gathered: Gathered::new(alloc),
            solver: sat_solve::Workspace::new(alloc),
            propagation: Propagation::new(alloc),
            witness: Witness::new(alloc),
            first_witness: Witness::new(alloc),
            nothing: BaseSet::empty(alloc),
            constraints: Vec::new(alloc),
            alone: false,
            by_formula: 0,
            on_nothing: false,
            keep: Vec::new(alloc),
            marks: Vec::new(alloc),
            set: Vec::new(alloc),
            rotation: sat_solve::Rotation::new(alloc),
            needed: Vec::new(alloc),
            used: Vec::new(alloc),
            out: SparseSet::new(alloc),
        })
    }
}
