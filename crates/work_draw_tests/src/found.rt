//! What several workers find by a finder of this crate, and whether it is what is written.

ghost use Rattle.std.specs.Prelude.{◌<◌, ◌≤◌, All, length};

use deb_verdict::{Groundwork, Told, Wanted, Workspace, told_in};
use std::alloc::{AllocError, Global};
use std::thread::Threads;
use work_draw::{Chunks, Finder, OpenGate, check_each};

/// Finds what is wanted of a package.
#[derive(Drop)]
struct Asking<'g> {
    groundwork: &'g Groundwork<'g>,
    wanted: Wanted,
}

impl Finder for Asking<'_> {
    ghost use Rattle.std.specs.Prelude.{length};
    ghost use Rattle.deb_health.specs.Verdicts.{IsTold, told_view};

    type Found = Told;

    ghost limit = { λ asking. length asking.groundwork.now.index.now.packages };

    ghost finds = { λ asking place told. IsTold asking.wanted asking.groundwork.now.index.now place (told_view told) };

    fn find(
        &self,
        alloc: Global,
        workspace: &mut Workspace,
        place: u32,
    ) -> Result<Told, AllocError> {
        told_in(alloc, workspace, self.groundwork, place, self.wanted)
    }
}

/// What is told of a place, in words: nothing of what can be installed where its set is not wanted.
fn written(alloc: Global, told: &Told) -> Result<String, AllocError> {
    match told {
        Told::Installable => String::from_str(alloc, "ok"),
        Told::Set(places) => format!(in alloc; "{places:?}"),
        Told::Broken(cores) => format!(in alloc; "broken {cores:?}"),
    }
}

/// Whether so many workers find of each asked place, one to a chunk, what is written of it.
pub fn finds_written(
    rt: &(impl Threads + Sync + AllocGlobal),
    groundwork: &Groundwork<'_>,
    wanted: Wanted,
    asked: &[u32],
    workers: u32,
    texts: &[&str],
) -> Result<bool, AllocError>
    requires places { All (λ place. place < length groundwork.now.index.now.packages) asked.now }
    requires few { length asked.now ≤ 100 }
    requires workers { (0 < workers) × (workers ≤ 64) }
{
    let asking = Asking { groundwork, wanted };
    let chunks = Chunks {
        finder: &asking,
        asked,
        chunk: 1,
        gate: &OpenGate,
    };
    let found = check_each(rt, rt.alloc(), &chunks, workers)?;
    let mut fine = found.len() == asked.len();
    for (place, told) in asked.iter().zip(found.iter()) {
        let text = written(rt.alloc(), told)?;
        fine &= texts.get(*place as usize).copied() == Some(text.as_str());
    }
    Ok(fine)
}
