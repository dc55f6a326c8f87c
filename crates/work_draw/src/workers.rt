//! Workers that draw chunks and find what is asked of their packages.
ghost use Rattle.std.specs.Prelude.{◌≡◌, ◌+◌, ◌<◌, ◌≤◌, ◌++◌, [], true, false, All, IfOk, OnOk, length};
ghost use Rattle.std.specs.Thread.{IsSync};
ghost use Rattle.work_draw.specs.Board.{both_drawers};
ghost use Rattle.work_draw.specs.Checks.{chunk_count, AreFound, Find, Gains, GainsButLast, GainsInAll, IsLeftBy, IsReady, after_crew};

use crate::board::{Board, Drawer};
use crate::chunks::{Chunks, Finder};
use crate::gate::Gate;
use crate::pieces::{Drawn, Piece};
use deb_index::Index;
use deb_verdict::{Groundwork, Workspace};
use std::alloc::{AllocError, Global};
use std::thread;
use std::thread::Threads;

/// Draws until no number is left, and makes a piece of each, in the order of the draws.
fn draw_each<F: Finder>(
    alloc: Global,
    finder: &F,
    board: &Board,
    workspace: &mut Workspace,
    drawer: &mut Drawer,
    pieces: &mut Vec<Piece<F::Found>>,
) -> Result<(), AllocError>
    requires ready { IsReady (F.limit finder.now) board.now drawer.old 1 }
    requires empty { pieces.old.items ≡ [] }
    ensures same { drawer.new ≡ record drawer.old { numbers = drawer.new.numbers; past = drawer.new.past; done = drawer.new.done } }
    ensures gained { OnOk result ((drawer.new.done ≡ true) × Gains drawer.old.numbers pieces.new.items drawer.new.numbers) }
    ensures refused { GainsButLast drawer.old.numbers pieces.new.items drawer.new.numbers }
    ensures found { Find (F.finds finder.now) pieces.new.items }
{
    while let Some(number) = board.draw(drawer) {
        let verdicts = finder.find(alloc, workspace, number)?;
        pieces.push(Piece { number, verdicts })?;
    }
    Ok(())
}

/// What each worker of a crew runs: as `draw_pieces`, of what the finder finds, in one workspace.
fn draw_found<F: Finder>(
    alloc: Global,
    finder: &F,
    board: &Board,
    drawer: Drawer,
) -> Drawn<F::Found>
    requires { IsReady (F.limit finder.now) board.now drawer 1 }
    ensures same { result.drawer ≡ record drawer { numbers = result.drawer.numbers; past = result.drawer.past; done = result.drawer.done } }
    ensures gained { result.refused ≡ false → (result.drawer.done ≡ true) × Gains drawer.numbers result.pieces.items result.drawer.numbers }
    ensures refused { GainsButLast drawer.numbers result.pieces.items result.drawer.numbers }
    ensures found { Find (F.finds finder.now) result.pieces.items }
{
    let mut drawn = Drawn {
        drawer,
        pieces: Vec::new(alloc),
        refused: true,
    };
    if let Ok(mut workspace) = Workspace::new(alloc) {
        let Drawn { drawer, pieces, .. } = &mut drawn;
        drawn.refused = draw_each(alloc, finder, board, &mut workspace, drawer, pieces).is_err();
        drop(workspace);
    }
    drawn
}

/// What each worker runs, in one workspace and on one groundwork: draws until no number is left, and makes a piece of each, in the order
/// of the draws. Where memory is refused it stops with `refused`, and the last number drawn may lack its piece; else the drawer is done.
/// It waits for the gate alone.
pub fn draw_pieces<G: Gate>(
    alloc: Global,
    index: &Index,
    asked: &[u32],
    chunk: u32,
    board: &Board,
    drawer: Drawer,
    gate: &G,
) -> Drawn
    requires board { drawer.board ≡ board.now }
    requires places { All (λ place. place < length index.now.packages) asked.now }
    requires chunk { 0 < chunk }
    requires total { board.now.total ≡ chunk_count asked.now chunk }
    ensures same { result.drawer ≡ record drawer { numbers = result.drawer.numbers; past = result.drawer.past; done = result.drawer.done } }
    ensures gained { result.refused ≡ false → (result.drawer.done ≡ true) × Gains drawer.numbers result.pieces.items result.drawer.numbers }
    ensures refused { GainsButLast drawer.numbers result.pieces.items result.drawer.numbers }
    ensures found { AreFound index.now asked.now chunk result.pieces.items }
{
    let Ok(groundwork) = Groundwork::new(alloc, index) else {
        return Drawn {
            drawer,
            pieces: Vec::new(alloc),
            refused: true,
        };
    };
    let chunks = Chunks {
        finder: &groundwork,
        asked,
        chunk,
        gate,
    };
    let drawn = draw_found(alloc, &chunks, board, drawer);
    drop(groundwork);
    drawn
}

/// What two crews of one board leave, as one. Memory is refused, too, where there is none for the pieces of both in one list.
fn joined<V: Drop>(board: &Board, first: Drawn<V>, second: Drawn<V>) -> Drawn<V>
    requires first { first.drawer.board ≡ board.now }
    requires second { second.drawer.board ≡ board.now }
    ensures drawer { result.drawer ≡ both_drawers first.drawer second.drawer }
    ensures refused { result.refused ≡ false → (first.refused ≡ false) × (second.refused ≡ false) }
    ensures pieces { result.refused ≡ false → result.pieces.items ≡ first.pieces.items ++ second.pieces.items }
{
    let Drawn {
        drawer,
        mut pieces,
        refused,
    } = first;
    let mut more = second.pieces;
    let full = pieces.append(&mut more).is_err();
    Drawn {
        drawer: board.join(drawer, second.drawer),
        pieces,
        refused: refused | second.refused | full,
    }
}

/// What the crew of `crew` leaves, of what the finder finds.
pub(crate) fn crew_found<F: Finder + Sync, R: Threads + Sync>(
    rt: &R,
    alloc: Global,
    finder: &F,
    board: &Board,
    drawer: Drawer,
    workers: u32,
) -> Drawn<F::Found>
where
    F::Found: Send,
    requires ready { IsReady (F.limit finder.now) board.now drawer workers }
    ensures { IsLeftBy (F.finds finder.now) drawer workers result }
{
    if workers == 1 {
        return draw_found(alloc, finder, board, drawer);
    }
    let half = workers / 2;
    let rest = workers - half;
    let (mine, theirs) = board.split(drawer, half - 1);
    let (first, second) = thread::join(
        rt,
        move || -> Drawn<F::Found>
            requires { IsSync R.row × IsSync F.row × IsReady (F.limit finder.now) board.now theirs half }
            ensures { IsLeftBy (F.finds finder.entry.now) theirs half result }
        { crew_found(rt, alloc, finder, board, theirs, half) },
        move || -> Drawn<F::Found>
            requires { IsSync R.row × IsSync F.row × IsReady (F.limit finder.now) board.now mine rest }
            ensures { IsLeftBy (F.finds finder.entry.now) mine rest result }
        { crew_found(rt, alloc, finder, board, mine, rest) },
    );
    joined(board, second, first)
}

/// So many workers at once, each as by `draw_pieces` but on a groundwork that all share, on drawers that are split off and joined again. The pieces
/// are those of the numbers that the drawer gained, each once, in any order. After a want of memory the drawers are gone, and the draws stand.
pub fn crew<G: Gate + Sync, R: Threads + Sync>(
    rt: &R,
    alloc: Global,
    index: &Index,
    asked: &[u32],
    chunk: u32,
    board: &Board,
    drawer: Drawer,
    workers: u32,
    gate: &G,
) -> Result<(Drawer, Vec<Piece>), AllocError>
    requires board { drawer.board ≡ board.now }
    requires places { All (λ place. place < length index.now.packages) asked.now }
    requires chunk { 0 < chunk }
    requires total { board.now.total ≡ chunk_count asked.now chunk }
    requires workers { (0 < workers) × (workers ≤ drawer.spare + 1) }
    ensures drawer { IfOk result (λ r. r.0 ≡ after_crew drawer workers r.0.past r.0.numbers) }
    ensures gained { IfOk result (λ r. GainsInAll drawer.numbers r.1.items r.0.numbers) }
    ensures found { IfOk result (λ r. AreFound index.now asked.now chunk r.1.items) }
{
    let groundwork = Groundwork::new(alloc, index)?;
    let chunks = Chunks {
        finder: &groundwork,
        asked,
        chunk,
        gate,
    };
    let drawn = crew_found(rt, alloc, &chunks, board, drawer, workers);
    drop(groundwork);
    if drawn.refused {
        return Err(AllocError);
    }
    Ok((drawn.drawer, drawn.pieces))
}
