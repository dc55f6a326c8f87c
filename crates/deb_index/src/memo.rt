//! Which row an atom got, remembered: most atoms come many times.
ghost use Rattle.std.specs.Prelude.{◌≡◌, ◌<◌, ℕ, List, Option, IfOk, IfSome, IsTrue, vec_len};
ghost use Rattle.std.specs.Option.{option_map};
ghost use Rattle.deb_relation.specs.Relationship.{atom_view};
ghost use Rattle.deb_index.specs.Packages.{IndexView};

use crate::limits::{LEAST_SLOTS, MOST_SLOTS};
use deb_relation::{Atom, Op, SmallText, Version};
use std::alloc::{AllocError, Global};
use std::hash::{FoldHasher, Hasher};

/// An atom, and the number of the row that it got.
#[derive(Clone, Copy)]
pub(crate) struct Met<'t> {
    atom: &'t Atom,
    row: u32,
    /// That of the atom: most others are told apart by it, without a look at the atom, which lies anywhere.
    mark: u16,
}

/// Some atoms with the rows that they got, each in the slot that it is given by its bytes.
#[derive(Drop)]
pub(crate) struct Memo<'t> {
    slots: Vec<Option<Met<'t>>>,
    ghost some: { 0 < vec_len slots },
}

/// Whether both are qualifiers of one text, or neither is there.
fn is_same_qualifier(qualifier: &Option<Box<SmallText>>, other: &Option<Box<SmallText>>) -> bool
    ensures { IsTrue result → option_map (λ q. q.value) qualifier.now ≡ option_map (λ q. q.value) other.now }
{
    match (qualifier, other) {
        (None, None) => true,
        (Some(qualifier), Some(other)) => qualifier.as_slice() == other.as_slice(),
        _ => false,
    }
}

/// Whether both are bounds of one operator and one text, or neither is there.
fn is_same_bound(bound: &Option<Box<(Op, Version)>>, other: &Option<Box<(Op, Version)>>) -> bool
    ensures { IsTrue result → option_map (λ b. b.value) bound.now ≡ option_map (λ b. b.value) other.now }
{
    match (bound, other) {
        (None, None) => true,
        (Some(bound), Some(other)) => bound.1.text() == other.1.text() && bound.0 == other.0,
        _ => false,
    }
}

/// Whether two atoms are written alike.
fn is_same_atom(atom: &Atom, other: &Atom) -> bool
    ensures { IsTrue result → atom_view atom.now ≡ atom_view other.now }
{
    atom.name.as_slice() == other.name.as_slice()
        && is_same_bound(&atom.bound, &other.bound)
        && is_same_qualifier(&atom.qualifier, &other.qualifier)
}

/// A number that tells most atoms apart.
pub(crate) fn digest_of(atom: &Atom) -> usize {
    let mut hasher = FoldHasher::default();
    hasher.write(atom.name.as_slice());
    if let Some(bound) = &atom.bound {
        hasher.write(bound.1.text());
    }
    hasher.finish() as usize
}

/// What tells an atom from most others of its slot, which the low bits give.
fn mark_of(digest: usize) -> u16 {
    (digest >> 48) as u16
}

impl<'t> Memo<'t> {
    ghost use Rattle.deb_index.specs.declared.meets.Role.{Role};
    ghost use Rattle.deb_index.specs.Rows.{AreMet, HasRow};

    /// Nothing is remembered yet; so many packages are to ask.
    pub(crate) fn new(alloc: Global, packages: u32) -> Result<Memo<'t>, AllocError>
        ensures { IfOk result (λ m. (index : IndexView) (role : Role) (rows : List (Option (List ℕ))) → AreMet index role rows m) }
    {
        let count = (packages as usize)
            .clamp(LEAST_SLOTS, MOST_SLOTS)
            .next_power_of_two();
        let mut slots = Vec::with_capacity(alloc, count)?;
        for _ in 0..count {
            slots.push(None)?;
        }
        Ok(Memo { slots })
    }

    /// There is a power of two of them.
    fn slot_of(&self, digest: usize) -> usize
        ensures { result < vec_len self.now.slots }
    {
        digest & (self.slots.len() - 1)
    }

    /// The number of the row that an atom got, if that is remembered.
    pub(crate) fn get(&self, digest: usize, atom: &Atom) -> Option<u32>
        ensures { (index : IndexView) (role : Role) (rows : List (Option (List ℕ))) → AreMet index role rows self.now
            → IfSome result (λ row. HasRow index role rows row (atom_view atom.now)) }
    {
        let met = self.slots[self.slot_of(digest)]?;
        if met.mark == mark_of(digest) && is_same_atom(met.atom, atom) {
            Some(met.row)
        } else {
            None
        }
    }

    /// Remembers the number of the row that an atom got.
    pub(crate) fn put(&mut self, digest: usize, atom: &'t Atom, row: u32)
        ensures { (index : IndexView) (role : Role) (rows : List (Option (List ℕ))) → AreMet index role rows self.old
            → HasRow index role rows row (atom_view atom.now) → AreMet index role rows self.new }
    {
        let slot = self.slot_of(digest);
        let mark = mark_of(digest);
        self.slots[slot] = Some(Met { atom, row, mark });
    }
}
