//! One test for each call that can want memory; trials/growths runs them with each growth refused in turn.

use crate::boards::{DEALS, deals, shares_a_thousand, stays_open};
use crate::calls::{Call, answers};
use crate::examples::THREE_PACKAGES;
use crate::pieces::{are_sets, piece_of};
use crate::tally::Hold;
use deb_verdict::{Cores, Wanted};
use std::alloc::AllocError;
use std::process::Abort;
use std::thread::Threads;
use work_draw::gather;

/// Boards of one drawer, one that lost a drawer, and one of a thousand numbers that two threads share.
#[test]
fn of_new_board(rt: HostRuntime) -> Result<(), AllocError> {
    let mut fine = true;
    for (total, wanted, closes) in &DEALS {
        fine &= deals(rt.alloc(), *total, *wanted, *closes)?;
    }
    fine &= stays_open(rt.alloc())?;
    fine &= shares_a_thousand(&rt)?;
    assert!(rt; fine);
    Ok(())
}

/// The pieces came out of order, and one has no verdict.
#[test]
fn of_gather(rt: HostRuntime) -> Result<(), AllocError> {
    let alloc = rt.alloc();
    let mut pieces = Vec::new(alloc);
    pieces.push(piece_of(alloc, 2, &[5])?)?;
    pieces.push(piece_of(alloc, 0, &[7, 3])?)?;
    pieces.push(piece_of(alloc, 1, &[])?)?;
    let found = gather(alloc, 3, pieces)?;
    assert!(rt; are_sets(&found, &[&[7], &[3], &[5]]));
    Ok(())
}

/// The call has its answer.
fn expect(
    rt: &(impl Abort + Threads + Sync + AllocGlobal),
    text: &[u8],
    asked: &[u32],
    call: Call<'_>,
) -> Result<(), AllocError> {
    let fine = answers(rt, text, asked, call)?;
    assert!(rt; fine);
    Ok(())
}

/// One package, with no line feed at the end.
const ONE_PACKAGE: &[u8] = b"Package: a
Version: 1
Architecture: amd64";

/// A place has a verdict as often as it is asked, and no place has none.
#[test]
fn of_check_all(rt: HostRuntime) -> Result<(), AllocError> {
    expect(&rt, ONE_PACKAGE, &[0, 0], Call::Sets(&[&[0], &[0]]))?;
    expect(&rt, ONE_PACKAGE, &[], Call::Sets(&[]))
}

/// One package that can be installed and one that can't.
const SOUND_AND_BROKEN: &[u8] = b"Package: a
Version: 1
Architecture: all

Package: b
Version: 1
Architecture: all
Depends: absent
";

/// Statuses, and a set and a core, by two workers.
#[test]
fn of_check_each(rt: HostRuntime) -> Result<(), AllocError> {
    let statuses = Wanted {
        sets: false,
        cores: Cores::None,
    };
    let call = Call::Told(2, statuses, &["ok", "broken []"]);
    expect(&rt, SOUND_AND_BROKEN, &[1, 0, 1], call)?;
    let call = Call::Told(2, Wanted::verdict(), &["[0]", "broken [[Need(1, 0)]]"]);
    expect(&rt, SOUND_AND_BROKEN, &[1, 0, 1], call)
}

#[test]
fn of_check_all_with_a_gate(rt: HostRuntime) -> Result<(), AllocError> {
    let call = Call::HeldSets(Hold::Nothing);
    expect(&rt, THREE_PACKAGES, &[0, 1, 2], call)
}

/// A worker makes a piece of each number that it draws, and none of one that its drawer had before.
#[test]
fn of_draw_pieces(rt: HostRuntime) -> Result<(), AllocError> {
    expect(&rt, THREE_PACKAGES, &[0, 1, 2], Call::Pieces)
}

/// Two workers make the same pieces, in either order.
#[test]
fn of_crew(rt: HostRuntime) -> Result<(), AllocError> {
    expect(&rt, THREE_PACKAGES, &[0, 1, 2], Call::PiecesByTwo)
}
