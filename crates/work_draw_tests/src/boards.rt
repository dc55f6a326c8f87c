//! Boards, and drawers that split, draw, join and close.

ghost use Rattle.std.specs.Prelude.{◌≡◌};

use std::alloc::{AllocError, Global};
use std::thread;
use std::thread::Threads;
use work_draw::{Board, Drawer, new_board};

/// How many numbers a board has, what its drawer draws of them, and whether that closes it.
pub static DEALS: [(u32, &[Option<u32>], bool); 3] = [
    (3, &[Some(0), Some(1), Some(2), None, None], true),
    (0, &[None], true),
    (3, &[Some(0)], false),
];

/// Whether a drawer draws these numbers.
fn draws(board: &Board, drawer: &mut Drawer, wanted: &[Option<u32>]) -> bool
    requires { drawer.old.board ≡ board.now }
    ensures { drawer.new.board ≡ board.now }
{
    let mut fine = true;
    for number in wanted {
        fine &= board.draw(drawer) == *number;
    }
    fine
}

/// Whether a board of so many numbers deals these, and is closed by its drawer or not.
pub fn deals(
    alloc: Global,
    total: u32,
    wanted: &[Option<u32>],
    closes: bool,
) -> Result<bool, AllocError> {
    let (board, mut drawer) = new_board(alloc, total)?;
    let opened = drawer.spare() == 63 && drawer.held() == 1 && !drawer.is_done();
    let drawn = draws(&board, &mut drawer, wanted);
    let done = drawer.is_done();
    let closed = board.close(drawer);
    Ok(opened && drawn && done == closes && closed == closes)
}

/// Whether a board that dealt all its numbers stays open without one of its drawers.
pub fn stays_open(alloc: Global) -> Result<bool, AllocError> {
    let (board, drawer) = new_board(alloc, 3)?;
    let (mut drawer, other) = board.split(drawer, 2);
    drop(other);
    let drawn = draws(&board, &mut drawer, &[Some(0), Some(1), Some(2), None]);
    let done = drawer.is_done();
    Ok(!board.close(drawer) && drawn && done)
}

/// Draws all numbers that are left. How often each came of a thousand is handed back, too.
fn draw_all(board: &Board, mut drawer: Drawer) -> (Drawer, [u8; 1000])
    requires { drawer.board ≡ board.now }
    ensures { (result.0.board ≡ drawer.board) × (result.0.held ≡ drawer.held) }
{
    let mut counts = [0u8; 1000];
    for _ in 0..2000u32 {
        let Some(number) = board.draw(&mut drawer) else {
            break;
        };
        if number < 1000 {
            counts[number as usize] = counts[number as usize].saturating_add(1);
        }
    }
    (drawer, counts)
}

/// Whether each of a thousand numbers came once.
fn is_each_once(some: &[u8; 1000], others: &[u8; 1000]) -> bool {
    for number in 0..1000usize {
        if some[number].saturating_add(others[number]) != 1 {
            return false;
        }
    }
    true
}

/// Whether two threads, each with one of the drawers of a split, draw each of a thousand numbers once.
pub fn shares_a_thousand(rt: &(impl Threads + Sync + AllocGlobal)) -> Result<bool, AllocError> {
    let (board, drawer) = new_board(rt.alloc(), 1000)?;
    let (mine, theirs) = board.split(drawer, 0);
    let shared = &board;
    let (first, second) = thread::join(
        rt,
        move || draw_all(shared, theirs),
        move || draw_all(shared, mine),
    );
    let mut drawer = board.join(second.0, first.0);
    let last = board.draw(&mut drawer);
    let both = drawer.held() == 2;
    let closed = board.close(drawer);
    Ok(last.is_none() && both && closed && is_each_once(&first.1, &second.1))
}
