//! Pieces, and the verdicts that are made of them.

ghost use Rattle.std.specs.Prelude.{◌≡◌, ◌≤◌, IfOk};

use deb_verdict::Verdict;
use std::alloc::{AllocError, Global};
use work_draw::Piece;

fn is_set(found: &Verdict, wanted: &[u32]) -> bool {
    match found {
        Verdict::Ok(places) => places.as_slice() == wanted,
        Verdict::Broken(_) => false,
    }
}

pub fn are_sets(found: &[Verdict], wanted: &[&[u32]]) -> bool {
    if found.len() != wanted.len() {
        return false;
    }
    for (verdict, set) in found.iter().zip(wanted.iter()) {
        if !is_set(verdict, *set) {
            return false;
        }
    }
    true
}

/// Whether this is the piece with this number of three asked packages, two to a chunk.
fn is_piece(piece: &Piece, number: usize) -> bool {
    let wanted: &[&[u32]] = if number == 0 {
        &[&[0, 2], &[1]]
    } else {
        &[&[2]]
    };
    number <= 1 && piece.number as usize == number && are_sets(&piece.verdicts, wanted)
}

/// Whether these are the first of both pieces, behind so many.
pub fn are_pieces_behind(pieces: &[Piece], first: u32) -> bool
    requires { first ≤ 1 }
{
    for (at, piece) in pieces.iter().enumerate() {
        if at > 1 || !is_piece(piece, first as usize + at) {
            return false;
        }
    }
    true
}

/// Whether these are both pieces, in either order.
pub fn are_both(pieces: &[Piece]) -> bool {
    if pieces.len() != 2 {
        return false;
    }
    let last = pieces[1].number as usize;
    last <= 1 && is_piece(&pieces[1], last) && is_piece(&pieces[0], 1 - last)
}

/// A piece with a set of one place for each of these places.
pub fn piece_of(alloc: Global, number: u32, places: &[u32]) -> Result<Piece, AllocError>
    ensures { IfOk result (λ p. p.number ≡ number) }
{
    let mut verdicts = Vec::new(alloc);
    for place in places {
        let set = [*place].to_vec(alloc)?;
        verdicts.push(Verdict::Ok(set))?;
    }
    Ok(Piece { number, verdicts })
}
