//! Calls on an index, and whether each has its answer.

ghost use Rattle.std.specs.Prelude.{◌≡◌, ◌<◌, ◌≤◌, All, length};

use crate::examples::{check_places, ground_of, index_of};
use crate::found::finds_written;
use crate::pieces::{are_both, are_pieces_behind, are_sets};
use crate::tally::{Hold, Tally};
use deb_index::Index;
use deb_verdict::Wanted;
use std::alloc::AllocError;
use std::process::Abort;
use std::thread::Threads;
use work_draw::{
    Board, Drawer, Drawn, Gate, OpenGate, Piece, check_all, crew, draw_pieces, new_board,
};

/// A call on asked places, and what it gives.
#[derive(Clone, Copy)]
pub enum Call<'a> {
    /// `check_all` by two workers, with one place to a chunk: these sets.
    Sets(&'a [&'a [u32]]),
    /// The same on three packages behind a gate that counts and holds back.
    HeldSets(Hold),
    /// `draw_pieces` on a board of two numbers for three packages, of which none or the first was drawn before: the other pieces.
    Pieces,
    /// `crew` of two on the same board: both pieces.
    PiecesByTwo,
    /// `check_each` by so many workers, of what is wanted: what is written so at each place of the index.
    Told(u32, Wanted, &'a [&'a str]),
}

/// Whether the call has its answer, and no memory was wanted.
pub fn holds(
    rt: &(impl Abort + Threads + Sync + AllocGlobal),
    text: &[u8],
    asked: &[u32],
    call: Call<'_>,
) -> bool {
    matches!(answers(rt, text, asked, call), Ok(true))
}

/// Whether the call has its answer on asked places of the index of a text.
///
/// # Errors
///
/// Want of memory.
pub fn answers(
    rt: &(impl Abort + Threads + Sync + AllocGlobal),
    text: &[u8],
    asked: &[u32],
    call: Call<'_>,
) -> Result<bool, AllocError> {
    let index = index_of(rt, text)?;
    let outcome = answers_on(rt, &index, asked, call);
    drop(index);
    outcome
}

fn answers_on(
    rt: &(impl Abort + Threads + Sync + AllocGlobal),
    index: &Index,
    asked: &[u32],
    call: Call<'_>,
) -> Result<bool, AllocError> {
    assert!(rt; asked.len() <= 100);
    check_places(rt, index, asked);
    match call {
        Call::Sets(wanted) => finds_sets(rt, index, asked, wanted, &OpenGate),
        Call::HeldSets(hold) => finds_held_sets(rt, index, asked, hold),
        Call::Pieces => finds_pieces(rt, index),
        Call::PiecesByTwo => finds_pieces_by_two(rt, index),
        Call::Told(workers, wanted, texts) => tells(rt, index, asked, workers, wanted, texts),
    }
}

fn tells(
    rt: &(impl Threads + Sync + AllocGlobal),
    index: &Index,
    asked: &[u32],
    workers: u32,
    wanted: Wanted,
    texts: &[&str],
) -> Result<bool, AllocError>
    requires places { All (λ place. place < length index.now.packages) asked.now }
    requires few { length asked.now ≤ 100 }
{
    let workers = workers.clamp(1, 64);
    let groundwork = ground_of(rt.alloc(), index, asked)?;
    let outcome = finds_written(rt, &groundwork, wanted, asked, workers, texts);
    drop(groundwork);
    outcome
}

fn finds_sets<G: Gate + Sync>(
    rt: &(impl Threads + Sync + AllocGlobal),
    index: &Index,
    asked: &[u32],
    wanted: &[&[u32]],
    gate: &G,
) -> Result<bool, AllocError>
    requires places { All (λ place. place < length index.now.packages) asked.now }
    requires few { length asked.now ≤ 100 }
{
    let found = check_all(rt, rt.alloc(), index, asked, 2, 1, gate)?;
    Ok(are_sets(&found, wanted))
}

/// Whatever the answer, no chunk is begun twice, and none is ended that was not begun.
fn finds_held_sets(
    rt: &(impl Threads + Sync + AllocGlobal),
    index: &Index,
    asked: &[u32],
    hold: Hold,
) -> Result<bool, AllocError>
    requires places { All (λ place. place < length index.now.packages) asked.now }
    requires few { length asked.now ≤ 100 }
{
    let gate = Tally::new(hold);
    let sets = finds_sets(rt, index, asked, &[&[0, 2], &[1], &[2]], &gate);
    if gate.is_in_order(u32::from(sets.is_ok())) {
        sets
    } else {
        Ok(false)
    }
}

/// Whether a worker on a board of two numbers, of which so many were drawn before, made the other pieces and closed the board. One that was refused memory
/// lacks at most the piece of its last number.
fn is_drawn(board: Board, drawn: Drawn, first: u32) -> Result<bool, AllocError>
    requires board { drawn.drawer.board ≡ board }
    requires first { first ≤ 1 }
{
    let Drawn {
        mut drawer,
        pieces,
        refused,
    } = drawn;
    let alone = drawer.spare() == 63 && drawer.held() == 1;
    let done = drawer.is_done();
    let next = board.draw(&mut drawer);
    let closed = board.close(drawer);
    let fine = alone && are_pieces_behind(&pieces, first);
    let count = first as usize + pieces.len();
    if refused && fine && next.unwrap_or(2) as usize <= count + 1 {
        return Err(AllocError);
    }
    Ok(!refused && fine && count == 2 && done && next.is_none() && closed)
}

/// Whether a worker makes a piece of each number that it draws, and none of the first where its drawer had that before.
fn finds_pieces_behind(
    rt: &(impl Abort + AllocGlobal),
    index: &Index,
    first: u32,
) -> Result<bool, AllocError>
    requires { first ≤ 1 }
{
    let asked = [0u32, 1, 2];
    check_places(rt, index, &asked);
    let (board, mut drawer) = new_board(rt.alloc(), 2)?;
    if first > 0 {
        assert!(rt; board.draw(&mut drawer) == Some(0));
    }
    let drawn = draw_pieces(rt.alloc(), index, &asked, 2, &board, drawer, &OpenGate);
    is_drawn(board, drawn, first)
}

fn finds_pieces(rt: &(impl Abort + AllocGlobal), index: &Index) -> Result<bool, AllocError> {
    let all = finds_pieces_behind(rt, index, 0)?;
    Ok(all && finds_pieces_behind(rt, index, 1)?)
}

/// Whether two workers made both pieces, in either order, and left a drawer that holds two of the 64 parts and closes the board.
fn are_by_two(board: Board, drawer: Drawer, pieces: &[Piece]) -> bool
    requires { drawer.board ≡ board }
{
    let both = drawer.spare() == 62 && drawer.held() == 2 && drawer.is_done();
    board.close(drawer) && both && are_both(pieces)
}

fn finds_pieces_by_two(
    rt: &(impl Abort + Threads + Sync + AllocGlobal),
    index: &Index,
) -> Result<bool, AllocError> {
    assert!(rt; index.len() == 3);
    let alloc = rt.alloc();
    let (board, drawer) = new_board(alloc, 2)?;
    let (drawer, pieces) = crew(
        rt,
        alloc,
        index,
        &[0, 1, 2],
        2,
        &board,
        drawer,
        2,
        &OpenGate,
    )?;
    Ok(are_by_two(board, drawer, &pieces))
}
