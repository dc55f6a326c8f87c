//! What is found of all asked places, in the order in which they were asked.
ghost use Rattle.std.specs.Prelude.{◌≡◌, ◌^◌, ◌<◌, ◌≤◌, All, IfOk, length, map};
ghost use Rattle.deb_health.specs.Verdicts.{IsVerdict, SpeaksOf, verdict_view};
ghost use Rattle.work_draw.specs.Checks.{AnswersEach};

use crate::board::new_board;
use crate::chunks::{Chunks, Finder};
use crate::gate::Gate;
use crate::pieces::gather;
use crate::workers::crew_found;
use deb_index::Index;
use deb_verdict::{Groundwork, Verdict};
use std::alloc::{AllocError, Global};
use std::thread::Threads;

/// What is found of each asked place, in the order of the list, for 1 to 64 workers, who share the finder. What else there is to say, `check_all` says.
pub fn check_each<F: Finder + Sync, G: Gate + Sync, R: Threads + Sync>(
    rt: &R,
    alloc: Global,
    chunks: &Chunks<'_, F, G>,
    workers: u32,
) -> Result<Vec<F::Found>, AllocError>
where
    F::Found: Send,
    requires few { length chunks.now.asked.now < 2 ^ 32 }
    requires workers { (0 < workers) × (workers ≤ 64) }
    ensures { IfOk result (λ found. AnswersEach (F.finds chunks.now.finder.now) chunks.now.asked.now found.items) }
{
    let total = chunks.asked.len().div_ceil(chunks.chunk as usize) as u32;
    let (board, drawer) = new_board(alloc, total)?;
    let drawn = crew_found(rt, alloc, chunks, &board, drawer, workers);
    let complete = board.close(drawn.drawer);
    if drawn.refused {
        return Err(AllocError);
    }
    prove!(complete);
    gather(alloc, total, drawn.pieces)
}

/// The verdict of each asked place, in the order of the list, for 1 to 64 workers and any chunk from 1.
/// Chunk number k is the places from k * `chunk` on; for each, a worker calls the gate before and, if all verdicts were found, after.
/// If a worker finds no memory it stops, the others go on, and the call answers want of memory.
pub fn check_all<G: Gate + Sync, R: Threads + Sync>(
    rt: &R,
    alloc: Global,
    index: &Index,
    asked: &[u32],
    workers: u32,
    chunk: u32,
    gate: &G,
) -> Result<Vec<Verdict>, AllocError>
    requires places { All (λ place. place < length index.now.packages) asked.now }
    requires few { length asked.now < 2 ^ 32 }
    requires workers { (0 < workers) × (workers ≤ 64) }
    requires chunk { 0 < chunk }
    ensures each { IfOk result (λ v. AnswersEach (IsVerdict index.now) asked.now (map verdict_view v.items)) }
    ensures same { IfOk result (λ v. length v.items ≡ length asked.now) }
    ensures within { IfOk result (λ v. All (SpeaksOf index.now) (map verdict_view v.items)) }
{
    let groundwork = Groundwork::new(alloc, index)?;
    let chunks = Chunks {
        finder: &groundwork,
        asked,
        chunk,
        gate,
    };
    let found = check_each(rt, alloc, &chunks, workers);
    drop(groundwork);
    found
}
