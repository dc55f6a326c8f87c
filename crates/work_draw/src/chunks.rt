//! What is found of one chunk of the asked places, and what finds it.
ghost use Rattle.std.specs.Prelude.{◌<◌, ℕ, All, IfOk, length};
ghost use Rattle.work_draw.specs.Checks.{AnswersEach, IsFound, chunk_count, chunk_of};

use crate::gate::Gate;
use deb_verdict::{Groundwork, Verdict, Workspace, verdict_in};
use std::alloc::{AllocError, Global};

/// Finds something of each of its numbers, as of the places of an index; shared between threads.
pub trait Finder {
    /// What is found of a number.
    type Found: Drop;

    // How many numbers there are, from 0.
    ghost limit: { Self → ℕ };

    // What may be found of a number.
    ghost finds: { Self → ℕ → Self.Found → Type 0 };

    /// What is found of a number, in the buffers of an earlier answer.
    fn find(
        &self,
        alloc: Global,
        workspace: &mut Workspace,
        number: u32,
    ) -> Result<Self::Found, AllocError>
        requires { number < limit self.now }
        ensures { IfOk result (finds self.now number) };
}

/// A groundwork finds the verdicts of the places of its index.
impl Finder for Groundwork<'_> {
    type Found = Verdict;

    ghost limit = { λ groundwork. length groundwork.index.now.packages };

    ghost finds = { λ groundwork. IsFound groundwork.index.now };

    fn find(
        &self,
        alloc: Global,
        workspace: &mut Workspace,
        place: u32,
    ) -> Result<Verdict, AllocError> {
        verdict_in(alloc, workspace, self, place)
    }
}

/// What is found of each place, in one workspace.
fn find_each<F: Finder>(
    alloc: Global,
    workspace: &mut Workspace,
    finder: &F,
    places: &[u32],
) -> Result<Vec<F::Found>, AllocError>
    requires { All (λ place. place < F.limit finder.now) places.now }
    ensures { IfOk result (λ v. AnswersEach (F.finds finder.now) places.now v.items) }
{
    let mut found = Vec::with_capacity(alloc, places.len())?;
    for place in places {
        let one = finder.find(alloc, workspace, *place)?;
        found.push(one)?;
    }
    Ok(found)
}

/// Asked places in chunks of `chunk` places, the last of which may be smaller.
#[derive(Drop)]
pub struct Chunks<'a, F: Finder, G> {
    /// Finds something of each place.
    pub finder: &'a F,
    pub asked: &'a [u32],
    pub chunk: u32,
    /// Is told of each chunk before and, if all was found, after.
    pub gate: &'a G,
    ghost places: { All (λ place. place < F.limit finder.now) asked.now },
    ghost some: { 0 < chunk },
}

/// Chunks find what is found of their places.
impl<F: Finder, G: Gate> Finder for Chunks<'_, F, G> {
    type Found = Vec<F::Found>;

    ghost limit = { λ chunks. chunk_count chunks.asked.now chunks.chunk };

    ghost finds = { λ chunks number found. AnswersEach (F.finds chunks.finder.now) (chunk_of chunks.asked.now chunks.chunk number) found.items };

    fn find(
        &self,
        alloc: Global,
        workspace: &mut Workspace,
        number: u32,
    ) -> Result<Vec<F::Found>, AllocError> {
        self.gate.before(number);
        let rest = &self.asked[number as usize * self.chunk as usize..];
        let size = rest.len().min(self.chunk as usize);
        let found = find_each(alloc, workspace, self.finder, &rest[..size])?;
        self.gate.after(number);
        Ok(found)
    }
}
